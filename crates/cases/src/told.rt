// What answers, refusals and states tell their caller.
#[cfg(test)]
mod tests {
    use memory::fault::MemoryFault;
    use model::answer::{Answer, Detail};
    use model::fault::EngineFault;
    use model::outcome::Outcome;
    use model::slot_state::SlotState;
    use refusal::refusal::Refusal;

    // The word of an answer, and what stands behind it.
    fn shown(answer: Answer<u8>) -> (&'static str, Option<Detail<u8>>) {
        (answer.word(), answer.detail())
    }

    // Number, detail and layer of a fault.
    fn told(fault: EngineFault) -> (u8, u64, u8) {
        let Refusal {
            number,
            detail,
            layer,
        } = fault.into();
        (number, detail, layer.into())
    }

    #[test]
    fn an_open_job_is_answered(rt: HostRuntime) {
        assert_eq!(rt;
            [
                shown(Answer::Begun),
                shown(Answer::Own),
                shown(Answer::Known),
                shown(Answer::Noted(3)),
                shown(Answer::Value(250)),
                shown(Answer::Acquired(4)),
                shown(Answer::Stored),
                shown(Answer::Good),
                shown(Answer::Stale(5)),
            ],
            [
                ("begun", None),
                ("own", None),
                ("known", None),
                ("noted", Some(Detail::Number(3))),
                ("value", Some(Detail::Value(250))),
                ("acquired", Some(Detail::Number(4))),
                ("stored", None),
                ("good", None),
                ("stale", Some(Detail::Number(5))),
            ]
        );
    }

    #[test]
    fn a_closing_job_is_answered(rt: HostRuntime) {
        assert_eq!(rt;
            [
                shown(Answer::Checking),
                shown(Answer::Undoing),
                shown(Answer::Passed(6)),
                shown(Answer::Committed),
                shown(Answer::Restored(7)),
                shown(Answer::Unlocking),
                shown(Answer::Released(8)),
                shown(Answer::Ended(Outcome::Committed)),
                shown(Answer::Ended(Outcome::Undone)),
            ],
            [
                ("checking", None),
                ("undoing", None),
                ("passed", Some(Detail::Number(6))),
                ("committed", None),
                ("restored", Some(Detail::Number(7))),
                ("unlocking", None),
                ("released", Some(Detail::Number(8))),
                ("ended committed", None),
                ("ended undone", None),
            ]
        );
    }

    #[test]
    fn refusals_are_number_detail_and_layer(rt: HostRuntime) {
        assert_eq!(rt;
            [
                told(EngineFault::MemoryTooLarge(65537)),
                told(EngineFault::UndoTooSmall(511)),
                told(EngineFault::LocksOutOfRange(257)),
                told(EngineFault::LimitOutOfRange(536870912)),
                told(EngineFault::NoSlot(8)),
                told(EngineFault::WrongState(SlotState::Checking(9))),
                told(EngineFault::from(MemoryFault::PastEnd(65535))),
                told(EngineFault::NotNoted(5)),
                told(EngineFault::NotHeld(6)),
                told(EngineFault::ReadSetFull),
                told(EngineFault::HeldListFull),
                told(EngineFault::UndoLogFull),
                told(EngineFault::LastVersion(7)),
                told(EngineFault::HeldByOther(3)),
            ],
            [
                (11, 65537, 2),
                (12, 511, 2),
                (13, 257, 2),
                (14, 536870912, 2),
                (21, 8, 2),
                (22, 2, 2),
                (23, 65535, 1),
                (24, 5, 2),
                (25, 6, 2),
                (26, 64, 2),
                (27, 32, 2),
                (28, 64, 2),
                (29, 7, 2),
                (31, 3, 2),
            ]
        );
    }

    #[test]
    fn states_are_numbers_0_to_4(rt: HostRuntime) {
        assert_eq!(rt; u8::from(SlotState::Free), 0);
        assert_eq!(rt; u8::from(SlotState::Open), 1);
        assert_eq!(rt; u8::from(SlotState::Checking(7)), 2);
        assert_eq!(rt; u8::from(SlotState::Unlocking(7, Outcome::Undone)), 3);
        assert_eq!(rt; u8::from(SlotState::Undoing), 4);
    }
}
