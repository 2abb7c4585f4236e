// What a granted step answers.
ghost use Rattle.std.specs.Prelude.{◌≡◌};
ghost use Rattle.model.specs.Told.{shown};

use crate::outcome::Outcome;

#[derive(Clone, Copy, PartialEq, Eq, Debug)]
pub enum Answer<V> {
    Begun,
    // the slot holds the lock already
    Own,
    // the lock is in the read set already
    Known,
    // the version noted
    Noted(u32),
    // the value loaded
    Value(V),
    // the version at which the lock was taken
    Acquired(u32),
    Stored,
    Good,
    // the lock of the first entry that is stale
    Stale(u32),
    Checking,
    Undoing,
    // the lock of the entry that was good
    Passed(u32),
    Committed,
    // the place whose old value was put back
    Restored(u32),
    Unlocking,
    // the lock released
    Released(u32),
    Ended(Outcome),
}

// What a listing prints behind the word of an answer that has more to tell.
#[derive(Clone, Copy, PartialEq, Eq, Debug)]
pub enum Detail<V> {
    Number(u32),
    Value(V),
}

impl<V: Copy> Answer<V> {
    // The answer's word, as a listing prints it. Word and detail apart, and no `Display`: a listing prints a value by its
    // parts, and `Display` would ask a text of `V`.
    pub fn word(self) -> &'static str
        ensures { result.now ≡ (shown self).0 }
    {
        match self {
            Answer::Begun => "begun",
            Answer::Own => "own",
            Answer::Known => "known",
            Answer::Noted(_) => "noted",
            Answer::Value(_) => "value",
            Answer::Acquired(_) => "acquired",
            Answer::Stored => "stored",
            Answer::Good => "good",
            Answer::Stale(_) => "stale",
            Answer::Checking => "checking",
            Answer::Undoing => "undoing",
            Answer::Passed(_) => "passed",
            Answer::Committed => "committed",
            Answer::Restored(_) => "restored",
            Answer::Unlocking => "unlocking",
            Answer::Released(_) => "released",
            Answer::Ended(Outcome::Committed) => "ended committed",
            Answer::Ended(Outcome::Undone) => "ended undone",
        }
    }

    // The number or value behind the word, where the answer has one; apart from it, as said there.
    pub fn detail(self) -> Option<Detail<V>>
        ensures { result ≡ (shown self).1 }
    {
        match self {
            Answer::Noted(version) | Answer::Acquired(version) => Some(Detail::Number(version)),
            Answer::Stale(lock) | Answer::Passed(lock) | Answer::Released(lock) => Some(
                Detail::Number(lock),
            ),
            Answer::Restored(place) => Some(Detail::Number(place)),
            Answer::Value(value) => Some(Detail::Value(value)),
            _ => None,
        }
    }
}
