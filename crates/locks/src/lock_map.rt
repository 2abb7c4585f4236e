// What a lock map is: a count of locks, and for every place the number of its lock.
ghost use Rattle.std.specs.Prelude.{◌≡◌, ℕ, ◌<◌};

pub trait LockMap {
    // how many locks there are
    ghost locks: { Self → ℕ };

    // the lock of a place
    ghost guard: { Self → ℕ → ℕ };

    // How many locks there are.
    fn count(&self) -> u32
        ensures { result ≡ locks self.now };

    // The lock of a place: below the count wherever the count is not 0, else 0; the same whenever asked.
    fn lock(&self, place: u32) -> u32
        ensures told { result ≡ guard self.now place }
        ensures none { locks self.now ≡ 0 → result ≡ 0 }
        ensures below { 0 < locks self.now → result < locks self.now };
}
