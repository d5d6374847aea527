// Which of two lists to offer (request F-1; model's specs/Compared say which): both are checked against the case. A
// list that passes comes before one that does not; of two that pass the one that earns more; of equal earners the one
// that is lower at the first hour where they differ; of identical lists the first. A refused reading, a refused record
// and a list that is not of T outputs are refused as the check refuses them. The lists are only read.
#![tactic(auto)]

ghost use Rattle.std.specs.Prelude.{◌≡◌, List, ℕ, ℤ, length};
ghost use Rattle.model.specs.Best.{lower, leads};
ghost use Rattle.model.specs.Compared.{compared_of, part_of, better_of};

use cases::{Comparison, Reading, Verdict};
use quantities::{HalfMills, Refusal};
use rules::check;

// Whether the first of two lists of one length is lower at the first hour where they differ. The order of slices is
// this too, but divides, which no code of the library does (tests/division).
fn is_lower(first: &[u16], second: &[u16]) -> bool
    requires { length first.now ≡ length second.now }
    ensures { result ≡ lower first.now second.now }
{
    for (&own, &other) in first.iter().zip(second) {
        if own != other {
            return own < other;
        }
    }
    false
}

// Whether the first of two lists, with what each earns, comes before the second.
fn comes_before(first: &[u16], own: HalfMills, second: &[u16], other: HalfMills) -> bool
    requires { length first.now ≡ length second.now }
    ensures { (earns : List ℕ → ℤ) → own.0 ≡ earns first.now
        → other.0 ≡ earns second.now → result ≡ leads earns first.now second.now }
{
    own > other || own == other && is_lower(first, second)
}

// The list to offer on the case that was read, with what it earns.
pub fn compare(reading: Reading, first: &[u16], second: &[u16]) -> Result<Comparison, Refusal>
    ensures { result
        ≡ compared_of reading.outcome reading.case first.now second.now }
{
    let one = check(reading, first)?;
    let two = check(reading, second)?;
    match (one, two) {
        (Verdict::Passes(own), Verdict::Passes(other)) => {
            if comes_before(second, other, first, own) {
                Ok(Comparison::Second(other))
            } else {
                Ok(Comparison::First(own))
            }
        }
        (Verdict::Passes(own), Verdict::Breaks(_)) => Ok(Comparison::First(own)),
        (Verdict::Breaks(_), Verdict::Passes(other)) => Ok(Comparison::Second(other)),
        (Verdict::Breaks(_), Verdict::Breaks(_)) => Ok(Comparison::Neither),
    }
}

// The part of the list to offer, as it was lent; where neither passes, and on every refusal, the empty part of the
// first.
pub fn better<'a>(reading: Reading, first: &'a [u16], second: &'a [u16]) -> &'a [u16]
    ensures { part_of result
        ≡ better_of reading.outcome reading.case (part_of first.entry) (part_of second.entry) }
{
    match compare(reading, first, second) {
        Ok(Comparison::First(_)) => first,
        Ok(Comparison::Second(_)) => second,
        Ok(Comparison::Neither) => &first[..0],
        Err(_) => &first[..0],
    }
}
