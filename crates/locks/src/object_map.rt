// The object map: a lock for each object, by the place at which it starts. The list of starts is lent
// and looked over once, as the map is made; a place is then found by halving the list.
ghost use Rattle.std.specs.Prelude.{◌≡◌, ◌<◌};
ghost use Rattle.locks.specs.ObjectMap.{object_locks, object_guard, lawful, LastStart};

use crate::lock_map::LockMap;

// The most objects that a map may have.
pub const MOST_OBJECTS: usize = 256;

#[derive(Drop)]
pub struct ObjectMap<'a> {
    starts: &'a [u32],
    // no length beside a list: it is 0 where the starts are not lawful, and `new` promises the list that it was given
    locks: u32,
    ghost counts: { locks ≡ object_locks starts.now },
}

impl<'a> ObjectMap<'a> {
    // A map over these starts. Where they are not lawful it counts 0 locks.
    pub fn new(starts: &'a [u32]) -> Self
        ensures { result.starts.now ≡ starts.now }
    {
        let locks = if is_lawful(starts) {
            starts.len() as u32
        } else {
            0
        };
        ObjectMap { starts, locks }
    }
}

impl LockMap for ObjectMap<'_> {
    ghost locks = { λ m. object_locks m.starts.now };

    ghost guard = { λ m p. object_guard m.starts.now p };

    fn count(&self) -> u32 {
        self.locks
    }

    // With locks to count, the index of the last start not above the place.
    fn lock(&self, place: u32) -> u32
        ensures told { result ≡ object_guard self.now.starts.now place }
        ensures none { object_locks self.now.starts.now ≡ 0 → result ≡ 0 }
        ensures below { 0 < object_locks self.now.starts.now → result < object_locks self.now.starts.now }
        ensures last { 0 < object_locks self.now.starts.now → LastStart self.now.starts.now place result }
    {
        if self.locks == 0 {
            return 0;
        }
        let up_to = self.starts.partition_point(|start| *start <= place);
        up_to as u32 - 1
    }
}

// Whether there are 1 to 256 starts, the first is 0, and they rise strictly.
fn is_lawful(starts: &[u32]) -> bool
    ensures { result ≡ lawful starts.now }
{
    starts.first() == Some(&0) && starts.len() <= MOST_OBJECTS && starts.is_sorted_by(|a, b| a < b)
}

#[cfg(test)]
mod tests {
    use super::*;
    use std::alloc::{AllocError, Global};
    use std::test::Fail;

    // The starts 0, 10, 20 and so on.
    fn tens(heap: Global, count: u32) -> Result<Vec<u32>, AllocError> {
        (0..count).map(|i| i.saturating_mul(10)).collect(heap)
    }

    #[test]
    fn the_last_start_not_above_is_found(rt: HostRuntime) {
        let map = ObjectMap::new(&[0, 5, 9]);
        assert_eq!(rt; map.count(), 3);
        assert_eq!(rt; map.lock(0), 0);
        assert_eq!(rt; map.lock(4), 0);
        assert_eq!(rt; map.lock(5), 1);
        assert_eq!(rt; map.lock(8), 1);
        assert_eq!(rt; map.lock(u32::MAX), 2);
    }

    #[test]
    fn unlawful_starts_count_no_locks(rt: HostRuntime) {
        assert_eq!(rt; ObjectMap::new(&[]).count(), 0);
        assert_eq!(rt; ObjectMap::new(&[]).lock(7), 0);
        assert_eq!(rt; ObjectMap::new(&[0]).count(), 1);
        assert_eq!(rt; ObjectMap::new(&[1]).count(), 0);
        assert_eq!(rt; ObjectMap::new(&[0, 4, 4]).count(), 0);
        assert_eq!(rt; ObjectMap::new(&[0, 9, 4]).lock(9), 0);
    }

    #[test]
    fn there_are_at_most_256_starts(rt: HostRuntime) -> Result<(), Fail> {
        let most = tens(rt.alloc(), 256)?;
        let map = ObjectMap::new(most.as_slice());
        assert_eq!(rt; map.count(), 256);
        assert_eq!(rt; map.lock(2_549), 254);
        assert_eq!(rt; map.lock(2_550), 255);
        let over = tens(rt.alloc(), 257)?;
        assert_eq!(rt; ObjectMap::new(over.as_slice()).count(), 0);
        Ok(())
    }
}
