// The lock word: 32 bits that tell the state of a lock.
//
//   free with version v     8 v + 4      v at most 536,870,911
//   held by slot s          8 (s + 1)    s at most 7
ghost use Rattle.std.specs.Prelude.{Some};
ghost use Rattle.locks.specs.LockWord.{Decodes, Encodes, no_lock_text, no_word_text};

use std::error::Error;
use std::fmt;

// The highest version: the word of a higher one does not fit 32 bits.
pub const LAST_VERSION: u32 = 536_870_911;

// The highest slot: an engine has eight, numbered from 0.
pub const LAST_SLOT: u32 = 7;

#[derive(Clone, Copy, PartialEq, Eq, Debug)]
pub enum Lock {
    // free, with this version
    Free(u32),
    // held by this slot
    Held(u32),
}

// No lock has this word.
#[derive(Clone, Copy, PartialEq, Eq, Debug)]
pub struct NoLock(pub u32);

// The version or the slot of this lock is too high for a word.
#[derive(Clone, Copy, PartialEq, Eq, Debug)]
pub struct NoWord(pub Lock);

impl TryFrom<Lock> for u32 {
    type Error = NoWord;

    ghost try_from_gives = { Encodes };

    fn try_from(lock: Lock) -> Result<u32, NoWord> {
        match lock {
            Lock::Free(version) if version <= LAST_VERSION => Ok(8 * version + 4),
            Lock::Held(slot) if slot <= LAST_SLOT => Ok(8 * (slot + 1)),
            _ => Err(NoWord(lock)),
        }
    }
}

impl TryFrom<u32> for Lock {
    type Error = NoLock;

    ghost try_from_gives = { Decodes };

    fn try_from(word: u32) -> Result<Lock, NoLock> {
        if word % 8 == 4 {
            Ok(Lock::Free(word / 8))
        } else if word % 8 == 0 && word >= 8 && word <= 8 * (LAST_SLOT + 1) {
            Ok(Lock::Held(word / 8 - 1))
        } else {
            Err(NoLock(word))
        }
    }
}

impl fmt::Display for NoLock {
    ghost output = { λ e. Some (no_lock_text e.0) };

    fn fmt<W: fmt::Write>(&self, f: &mut fmt::Formatter<W>) -> fmt::Result {
        write!(f, "no lock has the word {}", self.0)
    }
}

impl fmt::Display for NoWord {
    ghost output = { λ e. Some (no_word_text e.0) };

    fn fmt<W: fmt::Write>(&self, f: &mut fmt::Formatter<W>) -> fmt::Result {
        match self.0 {
            Lock::Free(version) => write!(f, "no word has room for the version {version}"),
            Lock::Held(slot) => write!(f, "no word has room for the slot {slot}"),
        }
    }
}

impl Error for NoLock {}

impl Error for NoWord {}

#[cfg(test)]
mod tests {
    use super::*;

    #[test]
    fn words_are_read_back(rt: HostRuntime) {
        assert_eq!(rt; u32::try_from(Lock::Free(0)), Ok(4));
        assert_eq!(rt; u32::try_from(Lock::Free(LAST_VERSION)), Ok(4_294_967_292));
        assert_eq!(rt;
            u32::try_from(Lock::Free(LAST_VERSION + 1)),
            Err(NoWord(Lock::Free(LAST_VERSION + 1)))
        );
        assert_eq!(rt; u32::try_from(Lock::Held(7)), Ok(64));
        assert_eq!(rt; u32::try_from(Lock::Held(8)), Err(NoWord(Lock::Held(8))));
        assert_eq!(rt; Lock::try_from(12), Ok(Lock::Free(1)));
        assert_eq!(rt; Lock::try_from(8), Ok(Lock::Held(0)));
        assert_eq!(rt; Lock::try_from(0), Err(NoLock(0)));
        assert_eq!(rt; Lock::try_from(72), Err(NoLock(72)));
        assert_eq!(rt; Lock::try_from(5), Err(NoLock(5)));
    }
}
