// Why the engine refuses a step.
ghost use Rattle.std.specs.Prelude.{◌≡◌};
ghost use Rattle.model.specs.declared.fault.EngineFault.TheVariants.{Memory};
ghost use Rattle.model.specs.Told.{told};

use crate::slot_state::SlotState;
use memory::fault::MemoryFault;
use refusal::layer::Layer;
use refusal::refusal::Refusal;

#[derive(Clone, Copy, PartialEq, Eq, Debug)]
pub enum EngineFault {
    // the memory counts more than 65,536 cells; how many
    MemoryTooLarge(u32),
    // the undo memory counts fewer than 512 cells; how many
    UndoTooSmall(u32),
    // the map counts no locks, or more than 256; how many
    LocksOutOfRange(u32),
    // the version limit is not from 1 to 536,870,911; what it is
    LimitOutOfRange(u32),
    // there is no such slot
    NoSlot(u32),
    // the slot's state does not grant the step
    WrongState(SlotState),
    // as the memory refused it
    Memory(MemoryFault),
    // the lock of the place is neither noted nor held by the slot
    NotNoted(u32),
    // the lock of the place is not held by the slot
    NotHeld(u32),
    ReadSetFull,
    HeldListFull,
    UndoLogFull,
    // the version of the lock is at the limit
    LastVersion(u32),
    // another slot holds the lock; which
    HeldByOther(u32),
}

// Number, detail and layer.
impl From<EngineFault> for Refusal {
    ghost from_gives = { λ fault r. r ≡ told fault };

    fn from(fault: EngineFault) -> Refusal {
        let (number, detail) = match fault {
            EngineFault::MemoryTooLarge(count) => (11, count),
            EngineFault::UndoTooSmall(count) => (12, count),
            EngineFault::LocksOutOfRange(count) => (13, count),
            EngineFault::LimitOutOfRange(limit) => (14, limit),
            EngineFault::NoSlot(slot) => (21, slot),
            EngineFault::WrongState(state) => (22, u8::from(state).into()),
            EngineFault::Memory(memory) => return memory.into(),
            EngineFault::NotNoted(lock) => (24, lock),
            EngineFault::NotHeld(lock) => (25, lock),
            EngineFault::ReadSetFull => (26, 64),
            EngineFault::HeldListFull => (27, 32),
            EngineFault::UndoLogFull => (28, 64),
            EngineFault::LastVersion(lock) => (29, lock),
            EngineFault::HeldByOther(slot) => (31, slot),
        };
        Refusal {
            number,
            detail: u64::from(detail),
            layer: Layer::Engine,
        }
    }
}

// By hand: a derived `From` states nothing of the fault that it makes.
impl From<MemoryFault> for EngineFault {
    ghost from_gives = { λ cause r. r ≡ Memory cause };

    fn from(cause: MemoryFault) -> EngineFault {
        EngineFault::Memory(cause)
    }
}
