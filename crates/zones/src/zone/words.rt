//! The word of a zone.

ghost use Rattle.std.specs.Prelude.{◌≡◌};
ghost use Rattle.zones.specs.Words.{rule_of, sound_zone, zone_of};

use super::{Rule, Zone};
use wordlist::fields::bits;

/// The operator of a zone's word, with the places that it is applied to.
impl From<u32> for Rule {
    ghost from_gives = { λ word r. r ≡ rule_of word };

    fn from(word: u32) -> Rule {
        let first = bits(word, 6, 6) as usize;
        let second = bits(word, 12, 6) as usize;
        match bits(word, 4, 2) {
            0 => Rule::Union(first, second),
            1 => Rule::Intersection(first, second),
            2 => Rule::Difference(first, second),
            _ => Rule::Outside(first),
        }
    }
}

/// The zone that a word says.
impl From<u32> for Zone {
    ghost from_gives = { λ word z. z ≡ zone_of word };

    fn from(word: u32) -> Zone {
        Zone {
            ty: bits(word, 0, 4) as u8,
            rule: Rule::from(word),
        }
    }
}

impl Zone {
    /// Whether the fields of the word of the zone of that number are good.
    pub fn sound(word: u32, number: usize) -> bool
        ensures { result ≡ sound_zone number word }
    {
        let first = bits(word, 6, 6) as usize;
        let second = bits(word, 12, 6) as usize;
        bits(word, 18, 10) == 0
            && first < number
            && match Rule::from(word) {
                Rule::Outside(_) => second == 0,
                _ => second < number,
            }
    }
}
