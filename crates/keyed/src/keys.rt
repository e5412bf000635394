//! Keys whose order is total by law, and records that have one.

ghost use Rattle.std.specs.Prelude.{◌≡◌};
ghost use Rattle.std.proofs.lemmas.Map.Lookups.{CmpEqualImpliesEq};

/// An order in which only a key and itself tie. That it is total is the law of `Ord`.
pub trait KeyOrd: Ord + Copy {
    /// Keys that tie are the same.
    ghost exact: { CmpEqualImpliesEq Self.cmp };
}

/// A record that has a key.
pub trait Keyed {
    type Key: KeyOrd;

    /// The key of a record.
    ghost keyed: { Self → Self.Key };

    /// The key of this record.
    fn key(&self) -> Self::Key
        ensures { result ≡ keyed self.now };
}
