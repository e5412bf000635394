//! The fields of a word.

ghost use Rattle.std.specs.Prelude.{◌≡◌};
ghost use Rattle.wordlist.specs.Fields.{field, kind_of};

/// The `count` bits from bit `low` up.
pub fn bits(word: u32, low: u32, count: u32) -> u32
    ensures { result ≡ field low count word }
{
    if low >= 32 {
        return 0;
    }
    if count >= 32 {
        return word >> low;
    }
    (word >> low) % (1 << count)
}

/// The kind of a word: its four highest bits.
// A number: `Kind` has no name for some.
pub fn kind(word: u32) -> u32
    ensures { result ≡ kind_of word }
{
    word >> 28
}
