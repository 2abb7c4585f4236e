// The line map: a lock for each line of a fixed number of places, the locks taken in turn.
ghost use Rattle.locks.specs.LineMap.{line_locks, line_guard};

use crate::lock_map::LockMap;

#[derive(Clone, Copy, PartialEq, Eq, Debug)]
pub struct LineMap {
    // places in a line
    pub span: u32,
    // locks to take in turn
    pub locks: u32,
}

impl LockMap for LineMap {
    ghost locks = { λ m. line_locks m.span m.locks };

    ghost guard = { λ m p. line_guard m.span m.locks p };

    fn count(&self) -> u32 {
        if self.span == 0 { 0 } else { self.locks }
    }

    fn lock(&self, place: u32) -> u32 {
        if self.count() == 0 {
            return 0;
        }
        place / self.span % self.locks
    }
}

#[cfg(test)]
mod tests {
    use super::*;

    #[test]
    fn lines_take_the_locks_in_turn(rt: HostRuntime) {
        let map = LineMap { span: 4, locks: 3 };
        assert_eq!(rt; map.count(), 3);
        assert_eq!(rt; map.lock(3), 0);
        assert_eq!(rt; map.lock(4), 1);
        assert_eq!(rt; map.lock(12), 0);
        assert_eq!(rt; map.lock(u32::MAX), 0);
    }

    #[test]
    fn without_span_or_locks_the_answer_is_0(rt: HostRuntime) {
        let no_span = LineMap { span: 0, locks: 3 };
        assert_eq!(rt; no_span.count(), 0);
        assert_eq!(rt; no_span.lock(9), 0);
        let no_locks = LineMap { span: 4, locks: 0 };
        assert_eq!(rt; no_locks.count(), 0);
        assert_eq!(rt; no_locks.lock(9), 0);
    }
}
