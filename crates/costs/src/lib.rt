// What an hour costs by the boiler maker's curve (request F-7): a kind becomes one record of three floats, which is
// tested once against refusal 16 and passed by value; the costs at each energy, taken to the nearest whole number of
// half-mills, fill a lent table. Nothing divides: digits are shifted. The definitions are those of curve's specs/Cost
// and specs/Pattern.
#![tactic(auto)]

ghost use Rattle.std.specs.Prelude.{◌≡◌, ◌++◌, ◌+◌, ◌%◌, ◌^◌, ◌≤◌, ◌<◌, T, pos, length, drop};
ghost use Rattle.std.specs.Float.Ieee.{eq};
ghost use Rattle.std.specs.Float.Ieee.Nearest.{closest};
ghost use Rattle.curve.specs.Pattern.{value_digits, sign_place, scale, field_of, whole_of};
ghost use Rattle.curve.specs.Cost.{most_energy, costs_length, whole, allowed, accepted, record_of, curved_of, cost_of};
ghost use Rattle.curve.specs.Cost.{entry_of, table_of, answer_of, lent_after, supplied_of};

use curve::{COSTS, Curve, FRACTION_DIGITS, Kind, MOST_COEFFICIENT, SCALE, SIGN_PLACE};
use quantities::{HalfMills, Refusal};

// How many numbers a table asks for.
const ROOM: usize = COSTS;

// The kind as a record.
pub fn record_of(kind: Kind) -> Curve
    ensures { result ≡ record_of kind }
{
    Curve::from(kind)
}

// Whether a coefficient is a number from 0 to the most. A NaN is not, and minus zero is.
fn coefficient(x: f64) -> bool
    ensures { result ≡ allowed x }
{
    (0.0 <= x) & (x <= MOST_COEFFICIENT)
}

// Whether a record passes refusal 16.
#[tactic(auto, unfolding(curve::specs::Cost::accepted))]
pub fn accepts(curve: Curve) -> bool
    ensures { result ≡ accepted curve }
{
    coefficient(curve.a) & (coefficient(curve.b) & coefficient(curve.c))
}

// Whether a coefficient is 0, or minus zero.
fn zero(x: f64) -> bool
    ensures { result ≡ eq x (whole 0) }
{
    x == 0.0
}

// The kind that a number tells: 0 flat, 1 straight, 2 curved. An unused coefficient that is not 0, or another number,
// is refused.
pub fn kind_of(number: u16, curve: Curve) -> Option<Kind>
    ensures { result ≡ supplied_of number curve }
{
    match number {
        0 => {
            if zero(curve.b) & zero(curve.c) {
                Some(Kind::Flat(curve.a))
            } else {
                None
            }
        }
        1 => {
            if zero(curve.c) {
                Some(Kind::Straight(curve.a, curve.b))
            } else {
                None
            }
        }
        2 => Some(Kind::Curved(curve.a, curve.b, curve.c)),
        _ => None,
    }
}

// The cost of a record at n, each operation rounded once.
#[tactic(auto, unfolding(curve::specs::Cost::cost_of))]
fn cost_at(curve: Curve, n: usize) -> f64
    requires { n ≤ most_energy }
    ensures { result ≡ cost_of (curved_of curve) n }
{
    let x = n as f64;
    (curve.c * x + curve.b) * x + curve.a
}

// The n low digits of x.
fn low(x: u64, n: u64) -> u64
    requires { n ≤ sign_place }
    ensures { result ≡ x % 2 ^ n }
{
    x - ((x >> n) << n)
}

// The whole number nearest to digits / 2 ^ shift, a tie to the even one.
fn nearest(digits: u64, shift: u64) -> u64
    requires { (digits < 2 ^ value_digits) × (shift ≤ value_digits) }
    ensures { result ≡ closest digits (2 ^ shift) }
{
    let whole = digits >> shift;
    let rest = low(digits, shift);
    let twice = rest + rest;
    let unit = 1u64 << shift;
    if twice < unit {
        return whole;
    }
    if unit < twice {
        return whole + 1;
    }
    whole + low(whole, 1)
}

// The whole number nearest to a pattern's value, a tie to the even one, for a value below 2 ^ 52.
fn round_bits(bits: u64) -> u64
    requires { field_of bits ≤ scale }
    ensures { result ≡ whole_of bits }
{
    let field = low(bits, SIGN_PLACE) >> FRACTION_DIGITS;
    if field < SCALE - FRACTION_DIGITS {
        return 0;
    }
    let lead = 1u64 << FRACTION_DIGITS;
    nearest(lead + low(bits, FRACTION_DIGITS), SCALE + 1 - field)
}

// The table's entry at n for an accepted record.
fn entry_at(curve: Curve, n: usize) -> HalfMills
    requires { T (accepted curve) × (n ≤ most_energy) }
    ensures { result.0 ≡ pos (entry_of (curved_of curve) n) }
{
    let cost = cost_at(curve, n);
    let bits = f64::to_bits(cost);
    let whole = round_bits(bits);
    HalfMills(whole as i64)
}

// Fills the first lent numbers with the entries of an accepted record; those after them stay.
pub fn fill(curve: Curve, table: &mut [i64])
    requires { T (accepted curve) × (costs_length ≤ length table.old) }
    ensures { table.new ≡ table_of (curved_of curve) ++ drop costs_length table.old }
{
    for n in 0..COSTS {
        money::store(table, n, entry_at(curve, n));
    }
}

// Fills a lent table with a kind's costs: 16 for a coefficient out of range, then 10 for too few lent numbers. A
// refusal leaves them as they were.
pub fn fill_table(kind: Kind, table: &mut [i64]) -> Result<(), Refusal>
    ensures { (result ≡ answer_of kind table.old)
        × (table.new ≡ lent_after kind table.old) }
{
    let curve = record_of(kind);
    if !accepts(curve) {
        return Err(Refusal(16));
    }
    if table.len() < ROOM {
        return Err(Refusal(10));
    }
    fill(curve, table);
    Ok(())
}
