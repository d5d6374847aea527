// The boiler maker's cost curve (request F-7): a kind with its coefficients, and the record that they travel in
// (records). What an hour costs by a curve, and the table of its costs, are defined in specs/; specs/Promises says what
// holds of them.
#![tactic(auto)]

pub mod records;

// Half-megawatt-hours: the energy of an hour, at the most; and the costs of a table, one for each energy from 0 on.
pub const MOST_ENERGY: usize = 800;

pub const COSTS: usize = MOST_ENERGY + 1;

// A coefficient, at the most.
pub const MOST_COEFFICIENT: f64 = 1000000.0;

// Binary digits of a float's pattern (specs/Pattern): those of its fraction, and all but its sign. Values are counted
// in units of 2 ^ -SCALE.
pub const FRACTION_DIGITS: u64 = 52;

pub const SIGN_PLACE: u64 = 63;

pub const SCALE: u64 = 1074;

// Flat (a), straight (a, b) or curved (a, b, c).
#[derive(Clone, Copy)]
pub enum Kind {
    Flat(f64),
    Straight(f64, f64),
    Curved(f64, f64, f64),
}

// The three coefficients, unused ones 0.
#[repr(C)]
#[derive(Clone, Copy)]
pub struct Curve {
    pub a: f64,
    pub b: f64,
    pub c: f64,
}
