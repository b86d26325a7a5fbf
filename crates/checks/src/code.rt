// The codes of an answer, by name.
pub const DONE: u16 = 0;

pub const BAD_SLOTS: u16 = 1;

pub const BAD_WAKE: u16 = 2;

pub const TOO_MANY_JOBS: u16 = 3;

pub const BAD_ROW: u16 = 4;

pub const FEW_STARTS: u16 = 5;

pub const SHORT_TABLE: u16 = 6;

pub const NO_PLAN: u16 = 7;

pub const SHORT_FILE: u16 = 8;

pub const WRONG_MARK: u16 = 9;

pub const WRONG_DISTANCE: u16 = 10;

pub const CUT_FILE: u16 = 11;

pub const FEW_ROWS: u16 = 12;

pub const NO_ROOM: u16 = 13;

pub const OUTSIDE_WINDOW: u16 = 14;

pub const SAME_START: u16 = 15;

pub const NEITHER_PROPER: u16 = 16;

pub const LONG_INPUT: u16 = 17;

pub const LEAVES_DAY: u16 = 18;

pub const NO_SUCH_SLOT: u16 = 19;

pub const DAY_OVER: u16 = 20;

pub const PLAN_EXISTS: u16 = 21;
