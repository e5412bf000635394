//! What the words of a place say.

ghost use Rattle.std.specs.Prelude.{◌≡◌, ℕ, map, length, take};
ghost use Rattle.listed.specs.Padding.{padded};

use arrayvec::ArrayVec;

/// What each of the words says, one part for a word; the parts need not be `Copy`.
pub fn parts<T: Default + Drop, F: Fn(u32) -> T>(
    words: &ArrayVec<u32, 16>,
    part: F,
) -> ArrayVec<T, 16>
    requires { F.IsAlwaysCallable part }
    ensures { (said : ℕ → T) → ((w : ℕ) (x : T) → F.post part w x → x ≡ said w) → result.items ≡ map said words.now.items }
{
    // pushed one by one: `from_iter` answers a Result, and what fits here always fits
    let mut parts = ArrayVec::new();
    for word in words.as_slice() {
        parts.push(part(*word));
    }
    parts
}

/// What each of the words says, one part for a word, and then what zeros say. It is an array, so that what is made of it
/// can be copied.
pub fn padded_parts<T: Copy, F: Fn(u32) -> T>(words: &ArrayVec<u32, 16>, part: F) -> [T; 16]
    requires { F.IsAlwaysCallable part }
    ensures whole { (said : ℕ → T) → ((w : ℕ) (x : T) → F.post part w x → x ≡ said w) → result ≡ padded said (length words.now.items) words.now.items }
    ensures front { (said : ℕ → T) → ((w : ℕ) (x : T) → F.post part w x → x ≡ said w) → take (length words.now.items) result ≡ map said words.now.items }
{
    let mut parts = [part(0); 16];
    for (k, word) in words.as_slice().iter().enumerate() {
        parts[k] = part(*word);
    }
    parts
}

#[cfg(test)]
mod tests {
    use super::{padded_parts, parts};
    use arrayvec::ArrayVec;
    use std::test::Fail;

    /// A part that can't be copied.
    #[derive(Default, Drop)]
    struct Half {
        value: u32,
    }

    fn halved(word: u32) -> Half {
        Half { value: word / 2 }
    }

    #[test]
    fn each_word_says_a_part(rt: HostRuntime) -> Result<(), Fail> {
        let mut words: ArrayVec<u32, 16> = ArrayVec::new();
        words.push(6);
        words.push(0);
        words.push(9);
        let halves = parts(&words, halved);
        let values = match halves.as_slice() {
            [first, second, third] => [first.value, second.value, third.value],
            _ => [0; 3],
        };
        assert!(rt; values == [3, 0, 4]);
        let padded = padded_parts(&words, |word| word / 2 + 1);
        assert!(rt; padded[..4] == [4, 1, 5, 1]);
        Ok(())
    }
}
