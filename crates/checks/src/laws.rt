//! What the checks ask of a hall, in the words of its places.

ghost use Rattle.checks.specs.Laws.{SomeSays, TypesSay};

/// Of a hall, to lie in some place of a type and the lying of types are what they are of its places.
pub fn sight_stands()
    ensures places { SomeSays }
    ensures types { TypesSay }
{}
