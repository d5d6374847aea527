// The words that every other crate speaks in: the case record with the fields of the case file, and the answers. What a
// case, a list and an answer mean is defined in specs/; specs/Promises says what holds of the definitions. No function
// stands here, so that an edit of a definition proves laws alone again.
#![tactic(auto)]

pub mod admitted;

use quantities::{HalfMills, Hour, Mills, Output, Refusal};

// The limits of a case, each named once (specs/Limits). Entries that a record has room for: outputs of a trajectory,
// hours of a day.
pub const STAGES: usize = 8;

pub const HOURS: usize = 168;

// Megawatts: a capacity or a ramp, at the most.
pub const MOST_OUTPUT: u16 = 400;

// Hours: a minimum time, at the most, and up to which it is short; h, at the most.
pub const MOST_TIME: u16 = 24;

pub const SHORT_TIME: u16 = 8;

pub const MOST_ELAPSED: u16 = 10000;

// Mills: F, and A, B or C, at the most; a price, at the most, above 0 and below.
pub const MOST_VARIABLE: i32 = 1000000;

pub const MOST_CHARGE: i32 = 100000000;

pub const MOST_PRICE: i32 = 10000000;

// The highest order byte: off-line.
pub const MOST_ORDER: u8 = 2;

// Hours: those of the longest year, and a day of the calendar at the least and at the most.
pub const YEAR_HOURS: u16 = 8784;

pub const SHORT_DAY: u16 = 23;

pub const LONG_DAY: u16 = 25;

// Signed 64-bit numbers that a search is lent to work in: where both minimum times are short, and where not.
pub const SHORT_WORK: usize = 8192;

pub const LONG_WORK: usize = 32768;

// Bytes of an input that the program reads as a case, at the most.
pub const INPUT: usize = 4096;

// Bytes of a case file (specs/Forms): a pair of offset and length, the unit section without stages and of the newest
// form, an output of a trajectory, an hour of the old form and of the newest, the form section.
pub const PAIR_BYTES: usize = 4;

pub const OLD_UNIT_BYTES: usize = 32;

pub const UNIT_BYTES: usize = 34;

pub const STAGE_BYTES: usize = 2;

pub const OLD_HOUR_BYTES: usize = 3;

pub const HOUR_BYTES: usize = 5;

pub const FORM_BYTES: usize = 2;

// Sections of the old form, and of the forms that hold their number; form 2, and the number of the newest.
pub const OLD_SECTIONS: usize = 4;

pub const SECTIONS: usize = 5;

pub const FORM_TWO: u16 = 2;

pub const FORM: u16 = 3;

// A case.
#[repr(C)]
#[derive(Clone, Copy)]
pub struct Case {
    pub capacity: Output,
    pub minimum: Output,
    pub rampup: Output,
    pub rampdown: Output,
    pub minup: Hour,
    pub mindown: Hour,
    // F, in mills per megawatt-hour; A per on-line hour, B per start, C per stop, in mills
    pub variable: Mills,
    pub fixed: Mills,
    pub startcost: Mills,
    pub stopcost: Mills,
    // p(0), and h: the hours that the unit has been on-line or off-line before hour 1
    pub initial: Output,
    pub elapsed: Hour,
    // the stage of a start-up, or of a shut-down, that p(0) has reached; 0 where it is in none
    pub upstage: u8,
    pub downstage: u8,
    // PU and PD
    pub rise: [Output; STAGES],
    pub fall: [Output; STAGES],
    // in mills per megawatt-hour; 0 free, 1 on-line, 2 off-line
    pub prices: [Mills; HOURS],
    pub orders: [u8; HOURS],
    // UD, DD and T: how many entries count; the arrays are as long as in C, which lays the record out
    pub rises: usize,
    pub falls: usize,
    pub hours: usize,
}

// The answer of `read` and `admit`: whether a file or a record was accepted. Beside a refusal the record is all zeros,
// as is promised, so the record stands beside the outcome and not in it.
#[derive(Clone, Copy)]
pub struct Reading {
    pub outcome: Result<(), Refusal>,
    pub case: Case,
}

// An hour, and the number of the rule that is broken there.
#[derive(Clone, Copy)]
pub struct Breach {
    pub hour: Hour,
    pub rule: u8,
}

// The answer of `check`.
#[derive(Clone, Copy)]
pub enum Verdict {
    Passes(HalfMills),
    Breaks(Breach),
}

// The answer of `compare`: which of two lists to offer, with what it earns, or neither.
#[derive(Clone, Copy)]
pub enum Comparison {
    First(HalfMills),
    Second(HalfMills),
    Neither,
}
