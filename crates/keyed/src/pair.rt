//! Keys of two fields.

ghost use Rattle.std.proofs.Common.{rules};

use super::keys::KeyOrd;

/// A key of two fields, of which `high` counts first.
// Not one type with the key of three, as an array: its fields have names.
#[derive(Clone, Copy, PartialEq, Eq, PartialOrd, Ord)]
pub struct Pair {
    pub high: u8,
    pub low: u8,
}

impl KeyOrd for Pair {
    ghost exact = { Prim.search rules };
}
