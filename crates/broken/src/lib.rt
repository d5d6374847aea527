// The lowest rule that an hour breaks; 0 where it breaks none, as in day's `broken_at`: no Option. The rules stand in
// groups, the later ones first: each group is given the number of those after it (specs/Groups). Only other crates of
// this repository call what has a `requires` or takes an hour here, with a case within the limits and the hour's
// numbers.
#![tactic(auto)]

pub mod limits;
pub mod times;

ghost use Rattle.std.specs.Prelude.{◌≡◌, cond, List, ℕ, ◌≤◌, ◌<◌};
ghost use Rattle.cases.specs.Symbols.{last, order};
ghost use Rattle.day.specs.Marks.{y, z};
ghost use Rattle.day.specs.Rules.{broken_at};
ghost use Rattle.hours.specs.Of.{case_of, list_of};
ghost use Rattle.broken.specs.Elapsed.{Held, Elapsed};
ghost use Rattle.broken.specs.Groups.{Rules, broken_in, edge, limit, ramp, commitment, overlap, terms};

use crate::limits::{above_least, below_most, both, meets_low, within_ramp};
use crate::times::{Since, kept_order, kept_time};
use cases::Case;
use hours::numbered::NumberedHour;
use quantities::Hour;

// The number of a rule that is not kept; else that of the rules after it.
fn first(kept: bool, number: u8, later: u8) -> u8
    ensures { result ≡ cond kept later number }
{
    if kept { later } else { number }
}

// (2) and (4), at hour 0.
pub fn broken_edge(hour: &NumberedHour<'_>) -> u8
    ensures { result ≡ broken_in hour.now (edge (case_of hour.now) (list_of hour.now)) }
{
    let case = &hour.counts.case.case;
    let n = hour.numbers;
    let four = first(below_most(case.capacity, n, n.shutdown), 4, 0);
    first(above_least(case.minimum, n, n.shutdown), 2, four)
}

// (1) to (4).
fn broken_limit(hour: &NumberedHour<'_>, later: u8) -> u8
    ensures { (rs : Rules) → later ≡ broken_in hour.now rs
        → result ≡ broken_in hour.now (limit (case_of hour.now) (list_of hour.now) rs) }
{
    let case = &hour.counts.case.case;
    let n = hour.numbers;
    let four = first(below_most(case.capacity, n, n.shutdown), 4, later);
    let three = first(below_most(case.capacity, n, n.startup), 3, four);
    let two = first(above_least(case.minimum, n, n.shutdown), 2, three);
    first(above_least(case.minimum, n, n.startup), 1, two)
}

// (5) and (6).
fn broken_ramp(hour: &NumberedHour<'_>, later: u8) -> u8
    ensures { (rs : Rules) → later ≡ broken_in hour.now rs
        → result ≡ broken_in hour.now (ramp (case_of hour.now) (list_of hour.now) rs) }
{
    let case = &hour.counts.case.case;
    let n = hour.numbers;
    let marks = n.marks;
    let down = within_ramp(
        case.capacity,
        case.rampdown,
        n.output,
        n.earlier,
        n.falling,
        marks.wasonline,
    );
    let up = within_ramp(
        case.capacity,
        case.rampup,
        n.earlier,
        n.output,
        n.startup.marks,
        marks.online,
    );
    first(up, 5, first(down, 6, later))
}

// (7) to (9).
fn broken_commitment(hour: &NumberedHour<'_>, later: u8) -> u8
    ensures { (rs : Rules) → later ≡ broken_in hour.now rs
        → result ≡ broken_in hour.now (commitment (case_of hour.now) (list_of hour.now) rs) }
{
    let n = hour.numbers;
    let marks = n.marks;
    let nine = first(n.shutdown.marks <= marks.online, 9, later);
    let eight = first(n.startup.marks <= marks.online, 8, nine);
    let before = both(marks.start, marks.wasonline);
    first(before == both(marks.online, marks.stop), 7, eight)
}

// (10) to (12).
fn broken_overlap(hour: &NumberedHour<'_>, later: u8) -> u8
    ensures { (rs : Rules) → later ≡ broken_in hour.now rs
        → result ≡ broken_in hour.now (overlap (case_of hour.now) (list_of hour.now) rs) }
{
    let n = hour.numbers;
    let met = meets_low(hour.counts.case.case.minimum, n);
    let eleven = first(met, 11, first(met, 12, later));
    first(both(n.marks.start, n.meeting) <= 1, 10, eleven)
}

// 21 to 23.
fn broken_terms(hour: &NumberedHour<'_>, since: Since, wanted: u8) -> u8
    ensures { Elapsed (case_of hour.now) (list_of hour.now) hour.now.hour.0 since
        → wanted ≡ order (case_of hour.now) hour.now.hour.0
        → result ≡ broken_in hour.now (terms (case_of hour.now) (list_of hour.now)) }
{
    let case = &hour.counts.case.case;
    let marks = hour.numbers.marks;
    let ordered = first(kept_order(wanted, marks.online), 23, 0);
    let down = first(
        kept_time(marks.start, case.mindown, since.stop),
        22,
        ordered,
    );
    first(kept_time(marks.stop, case.minup, since.start), 21, down)
}

// The lowest rule that an hour breaks, from hour 1 to T, with its order.
pub fn broken_at(hour: &NumberedHour<'_>, since: Since, wanted: u8) -> u8
    ensures { 0 < hour.now.hour.0 → hour.now.hour.0 ≤ last (case_of hour.now)
        → Elapsed (case_of hour.now) (list_of hour.now) hour.now.hour.0 since
        → wanted ≡ order (case_of hour.now) hour.now.hour.0
        → result ≡ broken_at (case_of hour.now) (list_of hour.now) hour.now.hour.0 }
{
    let terms = broken_terms(hour, since, wanted);
    let overlap = broken_overlap(hour, terms);
    let commitment = broken_commitment(hour, overlap);
    let ramp = broken_ramp(hour, commitment);
    broken_limit(hour, ramp)
}

// The rule that an hour above T breaks: 21, by the mark of its stop and the hours since the latest start; 0 where it
// breaks none.
pub fn broken_after(case: &Case, stop: u8, since: Hour) -> u8
    ensures { (l : List ℕ) (k : ℕ) → last case.now < k → stop ≡ z case.now l k
        → Held case.now (y case.now l) k since.0 → result ≡ broken_at case.now l k }
{
    first(kept_time(stop, case.minup, since), 21, 0)
}
