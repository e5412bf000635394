//! A plan that is read from words.

use super::draft::Draft;
use super::sheet::Sheet;

pub mod answers;
pub mod reading;

/// A plan, and the draft that the next list is read into.
#[derive(Drop)]
pub struct Listed<S> {
    sheet: Sheet<S>,
    draft: Draft<S>,
}
