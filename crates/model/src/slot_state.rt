// The state of a slot.
//
//   0  free         no job
//   1  open         the job notes, loads, acquires, stores and checks
//   2  checking     its read set is looked at once more, entry by entry
//   3  unlocking    its locks are released, one by one
//   4  undoing      its stores are undone, the newest first
ghost use Rattle.std.specs.Prelude.{◌≡◌};
ghost use Rattle.model.specs.Told.{state_number};

use crate::outcome::Outcome;

#[derive(Clone, Copy, PartialEq, Eq, Debug)]
pub enum SlotState {
    Free,
    Open,
    // the next entry of the read set
    Checking(usize),
    // the next entry of the held list, and what became of the job
    Unlocking(usize, Outcome),
    Undoing,
}

// The state's number: 0 to 4.
impl From<SlotState> for u8 {
    ghost from_gives = { λ state n. n ≡ state_number state };

    fn from(state: SlotState) -> u8 {
        match state {
            SlotState::Free => 0,
            SlotState::Open => 1,
            SlotState::Checking(_) => 2,
            SlotState::Unlocking(_, _) => 3,
            SlotState::Undoing => 4,
        }
    }
}
