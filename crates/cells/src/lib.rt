//! The cell plan: its places are sets of cells.
#![tactic(auto)]

use listed::listed::Listed;

pub mod cellset;
pub mod shape;

/// A plan whose places are sets of cells.
pub type Cells = Listed<cellset::CellSet>;
