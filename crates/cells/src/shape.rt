//! How a place of cells is read from its words, and what it covers.

ghost use Rattle.std.specs.Prelude.{◌≡◌};
ghost use Rattle.sets.specs.Member.{member};
ghost use Rattle.cells.specs.CellSets.{CellRows, cell_rows_of, cells_make, row_of};
ghost use Rattle.cells.specs.Rows;
ghost use Rattle.std.proofs.Common.{rules, arith};

use super::cellset::CellSet;
use arrayvec::ArrayVec;
use listed::floor::Floor;
use listed::parts::padded_parts;
use listed::shape::Shape;
use point::Point;
use wordlist::fields::bits;
use wordlist::kinds::Kind;

/// Whether bit `column` of a row is set.
// No set of 64 of it: one would be made for each point that is asked.
fn has_column(row: u16, column: u16) -> bool
    ensures { result ≡ member row column }
{
    column < 16 && (row >> column) & 1 == 1
}

/// The row that a word says.
// No `From`: neither a word nor a row is a type of this crate.
fn row(word: u32) -> u16
    ensures { result ≡ row_of word }
{
    bits(word, 0, 16) as u16
}

impl Shape for CellSet {
    ghost Model = { CellRows };

    ghost make = { cells_make };

    ghost model = { cell_rows_of };

    ghost short = { first_of (Prim.search rules, Prim.grind (arith, Self.row.coded.inj)) };

    ghost exact = { Rows.exact };

    fn head_kind() -> u32 {
        Kind::Cells.number()
    }

    fn body_kind() -> u32 {
        Kind::Row.number()
    }

    fn sound_head(word: u32) -> bool {
        bits(word, 4, 24) == 0
    }

    fn sound_body(_floor: Floor, word: u32) -> bool {
        bits(word, 16, 12) == 0
    }

    fn build(_floor: Floor, head: u32, body: &ArrayVec<u32, 16>) -> CellSet {
        CellSet {
            ty: bits(head, 0, 4) as u8,
            count: body.len(),
            rows: padded_parts(body, row),
        }
    }

    fn type_of(&self) -> u8 {
        self.ty
    }

    fn covers(&self, at: Point) -> bool {
        self.rows[..self.count]
            .get((at.y / 16) as usize)
            .is_some_and(|row| has_column(*row, at.x / 16))
    }
}
