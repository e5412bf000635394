//! How records are put on a shelf and looked up.

ghost use Rattle.std.specs.Prelude.{◌≡◌, true, [], length, IfOk, nat_lt, slice_get};
ghost use Rattle.keyed.specs.Orders.{below, follows, has as has_key, placed, rising};

use super::super::keys::Keyed;
use super::super::slices::{find, may_follow};
use super::Shelf;
use std::alloc::{AllocError, Global};

impl<R: Drop, const MOST: usize> Shelf<R, MOST> {
    /// No record, and the memory for `MOST`.
    pub fn new(heap: Global) -> Result<Shelf<R, MOST>, AllocError>
        ensures { IfOk result (λ s. s.records.items ≡ []) }
    {
        let records = Vec::with_capacity(heap, MOST)?;
        Ok(Shelf { records })
    }

    /// The records in their order.
    pub fn records(&self) -> &[R]
        ensures { result.now ≡ self.now.records.items }
    {
        &self.records
    }

    /// How many records there are.
    pub fn len(&self) -> usize
        ensures { result ≡ length self.now.records.items }
    {
        self.records.len()
    }

    /// Whether one more record fits.
    pub fn has_room(&self) -> bool
        ensures { result ≡ nat_lt (length self.now.records.items) MOST }
    {
        self.len() < MOST
    }

    /// Puts a record after the others; one that does not fit changes nothing.
    pub fn put(&mut self, record: R)
        ensures { self.new.records.items ≡ placed MOST self.old.records.items «record» }
    {
        if self.has_room() {
            self.records.push_reserved(record);
        }
    }

    /// Takes all records away.
    pub fn clear(&mut self)
        ensures { self.new.records.items ≡ [] }
    {
        self.records.clear();
    }
}

impl<R: Copy + Drop, const MOST: usize> Shelf<R, MOST> {
    /// Record `k`, if there are more than `k` records.
    pub fn get(&self, k: usize) -> Option<R>
        ensures { result ≡ slice_get self.now.records.items k }
    {
        self.records.get(k).copied()
    }
}

impl<R: Keyed + Drop, const MOST: usize> Shelf<R, MOST> {
    /// Whether a record's key is above the last one's.
    pub fn rises(&self, record: &R) -> bool
        ensures { result ≡ follows (below R.Key.cmp) R.keyed self.now.records.items (R.keyed «record».now) }
    {
        may_follow(&self.records, &record.key())
    }

    /// Whether a record has this key. If the keys do not rise, one that has it may be missed.
    pub fn has(&self, key: &R::Key) -> bool
        ensures sure { result ≡ true → has_key (below R.Key.cmp) R.keyed key.now self.now.records.items ≡ true }
        ensures value { rising (below R.Key.cmp) R.keyed self.now.records.items ≡ true → result ≡ has_key (below R.Key.cmp) R.keyed key.now self.now.records.items }
    {
        find(&self.records, key).is_some()
    }
}
