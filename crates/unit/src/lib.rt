// The unit of a case as the search sees it, the margins, orders and charges of its hours, and the state in which its
// day opens (machine's specs/Cases). For the crates of this repository, which call it with a case within the limits.
#![tactic(auto)]

ghost use Rattle.std.specs.Prelude.{◌≡◌, ◌≤◌, get_or, replicate, pos, ◌-ℤ◌};
ghost use Rattle.cases.specs.Limits.{most_hours};
ghost use Rattle.cases.specs.Layout.{padded, no_mills};
ghost use Rattle.machine.specs.Cases.{unit_of, rates_of, charges_of, opening_of, stops_early};

use cases::admitted::Admitted;
use cases::{Case, HOURS};
use machine::{Charges, Rates, State, Unit};
use quantities::{HalfMills, Hour, Mills, Output};

// The margins of the first n hours in place of zeros.
pub fn margins(prices: [Mills; HOURS], variable: Mills, n: usize, to: &mut [i64; HOURS])
    requires { (n ≤ most_hours) × (to.old ≡ replicate most_hours (pos 0)) }
    ensures { to.new
        ≡ padded (pos 0) (λ k. (get_or prices k no_mills).0 -ℤ variable.0) n most_hours }
{
    for k in 0..n {
        money::store(to, k, money::margin(prices[k], variable));
    }
}

// The orders of the first n hours, and 0 past them.
pub fn orders(bytes: [u8; HOURS], n: usize) -> [u8; HOURS]
    requires { n ≤ most_hours }
    ensures { result ≡ padded 0 (λ k. get_or bytes k 0) n most_hours }
{
    padded::front(&bytes, n, 0)
}

// What the energy of a day costs by F and A.
pub fn rates_of(case: Case) -> Rates
    ensures { result ≡ rates_of case }
{
    let variable = case.variable;
    let holds = money::charged(case.fixed, 1);
    Rates { variable, holds }
}

// What an on-line hour, a start and a stop cost.
#[tactic(auto, unfolding(machine::specs::Cases::charges_of))]
pub fn charges_of(case: Case, holds: HalfMills) -> Charges
    ensures { result ≡ charges_of case holds }
{
    let starts = money::charged(case.startcost, 1);
    let stops = money::charged(case.stopcost, 1);
    Charges {
        holds,
        starts,
        stops,
    }
}

// The state in which the day of a case within the limits opens.
#[tactic(auto, unfolding(machine::specs::Cases::opening_of))]
pub fn opening_of(admitted: &Admitted) -> State
    ensures { result ≡ opening_of admitted.now.case }
{
    let case = &admitted.case;
    if case.upstage != 0 {
        return State::Rise(case.upstage as usize - 1);
    }
    if case.downstage != 0 {
        return State::Fall(case.downstage as usize - 1);
    }
    let output = case.initial;
    if output == Output(0) {
        return State::Off(case.elapsed.min(case.mindown));
    }
    let done = Hour(case.elapsed.0 + case.falls as u16);
    State::Run(output, Hour(case.minup.0 + 1).less(done))
}

// Whether the day opens in a shut-down whose stop comes before the minimum up time has passed.
pub fn stops_early(admitted: &Admitted) -> bool
    ensures { result ≡ stops_early admitted.now.case }
{
    let case = &admitted.case;
    let passed = Hour(case.elapsed.0 + case.falls as u16);
    let asked = Hour(case.minup.0 + case.downstage as u16);
    (0 < case.downstage) & (passed < asked)
}

// The unit of a case within the limits.
#[tactic(auto, unfolding(machine::specs::Cases::unit_of))]
pub fn unit_of(admitted: &Admitted) -> Unit
    ensures { result ≡ unit_of admitted.now.case }
{
    let case = &admitted.case;
    let none = Output(0);
    Unit {
        minimum: case.minimum,
        capacity: case.capacity,
        rampup: case.rampup,
        rampdown: case.rampdown,
        mindown: case.mindown,
        lock: Hour(case.minup.0 + 1).less(Hour((case.rises + case.falls) as u16)),
        hours: Hour(case.hours as u16),
        rises: case.rises,
        falls: case.falls,
        pu: padded::front(&case.rise, case.rises, none),
        pd: padded::front(&case.fall, case.falls, none),
    }
}
