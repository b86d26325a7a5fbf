// Why a call is refused, and the numbers by which document 01 knows it.
ghost use Rattle.std.specs.Prelude.{◌≡◌};
ghost use Rattle.checks.specs.Answer.{refused};

use crate::{Answer, code};

// What is refused; a number names a row, counted from 1.
#[derive(Clone, Copy, PartialEq, Eq)]
pub enum Refusal {
    BadSlots,
    BadWake,
    TooManyJobs,
    BadRow(u16),
    FewStarts,
    ShortTable,
    NoPlan,
    ShortFile,
    WrongMark,
    WrongDistance,
    CutFile,
    FewRows,
    NoRoom,
    OutsideWindow(u16),
    SameStart(u16, u16),
    NeitherProper,
    LongInput,
    LeavesDay(u16),
    NoSuchSlot,
    DayOver,
    PlanExists,
}

impl Refusal {
    // The number of a refusal.
    fn code(self) -> u16
        ensures { result ≡ (refused self).code }
    {
        match self {
            Refusal::BadSlots => code::BAD_SLOTS,
            Refusal::BadWake => code::BAD_WAKE,
            Refusal::TooManyJobs => code::TOO_MANY_JOBS,
            Refusal::BadRow(_) => code::BAD_ROW,
            Refusal::FewStarts => code::FEW_STARTS,
            Refusal::ShortTable => code::SHORT_TABLE,
            Refusal::NoPlan => code::NO_PLAN,
            Refusal::ShortFile => code::SHORT_FILE,
            Refusal::WrongMark => code::WRONG_MARK,
            Refusal::WrongDistance => code::WRONG_DISTANCE,
            Refusal::CutFile => code::CUT_FILE,
            Refusal::FewRows => code::FEW_ROWS,
            Refusal::NoRoom => code::NO_ROOM,
            Refusal::OutsideWindow(_) => code::OUTSIDE_WINDOW,
            Refusal::SameStart(_, _) => code::SAME_START,
            Refusal::NeitherProper => code::NEITHER_PROPER,
            Refusal::LongInput => code::LONG_INPUT,
            Refusal::LeavesDay(_) => code::LEAVES_DAY,
            Refusal::NoSuchSlot => code::NO_SUCH_SLOT,
            Refusal::DayOver => code::DAY_OVER,
            Refusal::PlanExists => code::PLAN_EXISTS,
        }
    }

    // The rows that a refusal names; 0 where it names none.
    fn rows(self) -> (u16, u16)
        ensures { (result.0 ≡ (refused self).first) × (result.1 ≡ (refused self).second) }
    {
        match self {
            Refusal::BadRow(row) => (row, 0),
            Refusal::OutsideWindow(row) => (row, 0),
            Refusal::LeavesDay(row) => (row, 0),
            Refusal::SameStart(row, partner) => (row, partner),
            _ => (0, 0),
        }
    }
}

impl From<Refusal> for Answer {
    ghost from_gives = { λ refusal answer. answer ≡ refused refusal };

    fn from(refusal: Refusal) -> Answer {
        let (first, second) = refusal.rows();
        Answer {
            code: refusal.code(),
            first,
            second,
        }
    }
}

impl From<Result<(), Refusal>> for Answer {
    ghost use Rattle.checks.specs.Answer.{checked};

    ghost from_gives = { λ outcome answer. answer ≡ checked outcome };

    fn from(outcome: Result<(), Refusal>) -> Answer {
        match outcome {
            Ok(()) => Answer::done(0),
            Err(refusal) => Answer::from(refusal),
        }
    }
}

impl From<Result<u16, Refusal>> for Answer {
    ghost use Rattle.checks.specs.Answer.{answered};

    ghost from_gives = { λ outcome answer. answer ≡ answered outcome };

    fn from(outcome: Result<u16, Refusal>) -> Answer {
        match outcome {
            Ok(first) => Answer::done(first),
            Err(refusal) => Answer::from(refusal),
        }
    }
}
