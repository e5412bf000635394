//! A shelf whose keys rise.

ghost use Rattle.std.specs.Prelude.{◌≡◌, true, [], IfOk};
ghost use Rattle.keyed.specs.Orders.{below, follows, has as has_key, placed_rising, rising};

use super::keys::Keyed;
use super::shelf::Shelf;
use std::alloc::{AllocError, Global};

/// Records, `MOST` at the most, each with its key above the one before.
#[derive(Drop)]
pub struct Rising<R: Keyed, const MOST: usize> {
    shelf: Shelf<R, MOST>,
    ghost rise: { rising (below R.Key.cmp) R.keyed shelf.records.items ≡ true },
}

impl<R: Keyed + Drop, const MOST: usize> Rising<R, MOST> {
    /// No record, and the memory for `MOST`.
    pub fn new(heap: Global) -> Result<Rising<R, MOST>, AllocError>
        ensures { IfOk result (λ s. s.shelf.records.items ≡ []) }
    {
        let shelf = Shelf::new(heap)?;
        Ok(Rising { shelf })
    }

    /// The records on their shelf.
    pub fn shelf(&self) -> &Shelf<R, MOST>
        ensures { result.now ≡ self.now.shelf }
    {
        &self.shelf
    }

    /// Whether a record's key is above the last one's.
    pub fn rises(&self, record: &R) -> bool
        ensures { result ≡ follows (below R.Key.cmp) R.keyed self.now.shelf.records.items (R.keyed «record».now) }
    {
        self.shelf.rises(record)
    }

    /// Puts a record after the others; one that does not fit, or whose key may not follow, changes nothing.
    pub fn put(&mut self, record: R)
        ensures { self.new.shelf.records.items ≡ placed_rising (below R.Key.cmp) R.keyed MOST self.old.shelf.records.items «record» }
    {
        if self.rises(&record) {
            self.shelf.put(record);
        }
    }

    /// Takes all records away.
    pub fn clear(&mut self)
        ensures { self.new.shelf.records.items ≡ [] }
    {
        self.shelf.clear();
    }

    /// Whether a record has this key.
    pub fn has(&self, key: &R::Key) -> bool
        ensures { result ≡ has_key (below R.Key.cmp) R.keyed key.now self.now.shelf.records.items }
    {
        self.shelf.has(key)
    }
}

#[cfg(test)]
mod tests {
    use super::super::keys::Keyed;
    use super::super::pair::Pair;
    use super::super::slices::all_rise;
    use super::Rising;
    use std::test::Fail;

    #[derive(Clone, Copy)]
    struct Entry {
        at: Pair,
    }

    impl Keyed for Entry {
        type Key = Pair;

        ghost keyed = { λ e. e.at };

        fn key(&self) -> Pair {
            self.at
        }
    }

    #[test]
    fn what_rises_is_kept_and_found(rt: HostRuntime) -> Result<(), Fail> {
        let mut shelf: Rising<Entry, 2> = Rising::new(rt.alloc())?;
        for (high, low) in [(1, 7), (2, 0), (2, 0), (3, 1)] {
            let entry = Entry {
                at: Pair { high, low },
            };
            shelf.put(entry);
        }
        assert_eq!(rt; shelf.shelf().len(), 2);
        assert!(rt; all_rise(shelf.shelf().records()));
        assert!(rt; shelf.has(&Pair { high: 2, low: 0 }));
        assert!(rt; !shelf.has(&Pair { high: 3, low: 1 }));
        Ok(())
    }
}
