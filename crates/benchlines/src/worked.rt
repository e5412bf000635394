//! Worked lines.

ghost use Rattle.benchlines.specs.Worked.{GoodLines, BadLines, CutInputs, PrintedLines};

/// The tables of worked lines hold.
pub fn lines_stand()
    ensures good { GoodLines }
    ensures bad { BadLines }
    ensures cut { CutInputs }
    ensures printed { PrintedLines }
{}
