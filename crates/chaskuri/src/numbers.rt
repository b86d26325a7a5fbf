// One slot's record in numbers, for C, which takes no enum.
ghost use Rattle.std.specs.Prelude.{◌≡◌};
ghost use Rattle.chaskuri.specs.Slot.{in_numbers};

use checks::Answer;
use ledger::{Fill, SlotAnswer};

// What fills the slot is named by the ledger's count that it belongs to, counted from 0; `row` is the job's, counted from 1, or 0 where no job stands.
#[repr(C)]
#[derive(Clone, Copy)]
pub struct SlotNumbers {
    pub answer: Answer,
    pub slot: u16,
    pub filling: u16,
    pub row: u16,
}

impl From<SlotAnswer> for SlotNumbers {
    ghost from_gives = { λ shown numbers. numbers ≡ in_numbers shown };

    fn from(shown: SlotAnswer) -> SlotNumbers {
        let (filling, row) = match shown.held.fill {
            Fill::Before => (0, 0),
            Fill::Job(row) => (1, row),
            Fill::Awake => (2, 0),
            Fill::Asleep => (3, 0),
            Fill::After => (4, 0),
        };
        SlotNumbers {
            answer: shown.answer,
            slot: shown.held.slot,
            filling,
            row,
        }
    }
}
