// The profit of a list, exact to the half-mill (day's specs/Profit), in one pass over its hours: a day stays within
// `most_profit` of machine's specs/Bounds. Only other crates of this repository call what has a `requires` here, with a
// case within the limits.
#![tactic(auto)]

ghost use Rattle.std.specs.Prelude.{List, ℕ, ◌*◌, ◌≤◌, nat_abs};
ghost use Rattle.day.specs.Profit.{profit_at, profit_of};
ghost use Rattle.machine.specs.Bounds.{most_margin, most_fee, most_hour_profit, most_profit};
ghost use Rattle.profit.specs.Worth.{Worth, Hourly, charge_of};

use cases::admitted::Admitted;
use hours::marks::{Marks, marks_of, output_at};
use money::{charged, difference, margin, multiple, sum};
use quantities::{HalfMills, Hour, Output};

// What an hour costs beside F, by its marks.
fn charge_of(case: &Admitted, m: Marks) -> HalfMills
    requires { (m.online ≤ 1) × (m.start ≤ 1) × (m.stop ≤ 1) }
    ensures { Worth (charge_of case.now.case m) (3 * most_fee) result.0 }
{
    let case = &case.case;
    let online = charged(case.fixed, m.online);
    let start = charged(case.startcost, m.start);
    let stop = charged(case.stopcost, m.stop);
    sum(online, sum(start, stop))
}

// The profit of an hour from output q to p, with what a half-megawatt-hour earns.
fn hour_profit(case: &Admitted, over: HalfMills, q: Output, p: Output) -> HalfMills
    requires { nat_abs over.0 ≤ most_margin }
    ensures { (l : List ℕ) (k : ℕ) → Hourly case.now.case l k over.0 q.0 p.0
        → Worth (profit_at case.now.case l k) most_hour_profit result.0 }
{
    let gain = multiple(over, usize::from(p.0) + usize::from(q.0));
    difference(gain, charge_of(case, marks_of(q, p)))
}

// The profit of the day, for a list of any length. The price of hour k + 1 stands at place k.
pub fn profit_of(case: &Admitted, list: &[u16]) -> HalfMills
    ensures { Worth (profit_of case.now.case list.now) most_profit result.0 }
{
    let day = &case.case;
    let mut total = HalfMills(0);
    let mut was = day.initial;
    for k in 0..day.hours {
        let over = margin(day.prices[k], day.variable);
        let is = output_at(day, list, Hour(k as u16 + 1));
        total = sum(total, hour_profit(case, over, was, is));
        was = is;
    }
    total
}
