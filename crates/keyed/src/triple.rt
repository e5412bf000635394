//! Keys of three fields.

ghost use Rattle.std.proofs.Common.{rules};

use super::keys::KeyOrd;

/// A key of three fields, of which `high` counts first and `low` last.
#[derive(Clone, Copy, PartialEq, Eq, PartialOrd, Ord)]
pub struct Triple {
    pub high: u8,
    pub mid: u8,
    pub low: u8,
}

impl KeyOrd for Triple {
    ghost exact = { Prim.search rules };
}
