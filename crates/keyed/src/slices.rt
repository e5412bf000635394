//! The rising check and the search by key, over slices of records.

ghost use Rattle.std.specs.Prelude.{◌≡◌, ◌<◌, true, length, IfSome};
ghost use Rattle.std.specs.List.{HoldsAt};
ghost use Rattle.keyed.specs.Orders.{below, rising, follows, find_of};

use super::keys::Keyed;
use std::cmp::Ordering;

/// Whether a record with this key may follow these: its key is above the last one's.
pub fn may_follow<R: Keyed>(records: &[R], key: &R::Key) -> bool
    ensures { result ≡ follows (below R.Key.cmp) R.keyed records.now key.now }
{
    match records {
        [] => true,
        [.., last] => last.key() < *key,
    }
}

/// Whether each key is above the one before.
pub fn all_rise<R: Keyed>(records: &[R]) -> bool
    ensures { result ≡ rising (below R.Key.cmp) R.keyed records.now }
{
    records.is_sorted_by(|one, next| one.key() < next.key())
}

/// Where the record with this key stands, found by halving. If the keys do not rise, the answer is either none or a
/// place where a record has the key.
pub fn find<R: Keyed>(records: &[R], key: &R::Key) -> Option<usize>
    ensures within { IfSome result (λ i. i < length records.now) }
    ensures same { IfSome result (λ i. HoldsAt (λ x. R.keyed x ≡ key.now) records.now i) }
    ensures value { rising (below R.Key.cmp) R.keyed records.now ≡ true → result ≡ find_of (below R.Key.cmp) R.keyed key.now records.now }
{
    // by hand: std's search goes on to the end where it meets the key, and this one stops there
    let mut low = 0usize;
    let mut high = records.len();
    while low < high {
        let mid = low + (high - low) / 2;
        match records[mid].key().cmp(key) {
            Ordering::Less => low = mid + 1,
            Ordering::Equal => return Some(mid),
            Ordering::Greater => high = mid,
        }
    }
    None
}
