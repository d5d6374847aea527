// The orders that two lists of windows of a year, on-line and off-line, give the hours of a day (request F-3; model's
// specs/Calendar). Lists or a day that are not as laid down are refused by 14, an hour of the day in both lists by 15.
// Each number of a list is looked at once.
#![tactic(auto)]

mod days;
mod windows;

ghost use Rattle.std.specs.Prelude.{not, ◌||◌, [], ◌≡◌, ◌≢◌, eqb, get_or, IfErr, IfOk};
ghost use Rattle.cases.specs.Limits.{most_hours};
ghost use Rattle.cases.specs.Symbols.{every, before};
ghost use Rattle.cases.specs.Layout.{padded};
ghost use Rattle.cases.specs.Refusals.{first_of};
ghost use Rattle.model.specs.Calendar.{is_day, filled_orders, calendar_tests};
ghost use Rattle.orders.specs.Marked.{one_of};

use cases::{HOURS, LONG_DAY, SHORT_DAY};
use days::Day;
use quantities::{Hour, Refusal};
use windows::Window;

// Whether a day of the year is of 23 to 25 hours and ends within the year.
fn is_day(first: Hour, hours: Hour) -> bool
    ensures { result ≡ is_day first.0 hours.0 }
{
    ((SHORT_DAY <= hours.0) & (hours.0 <= LONG_DAY)) & Window { first, hours }.in_year()
}

// Whether an hour of a day has both marks.
fn meet(ons: [u8; HOURS], offs: [u8; HOURS], day: Day) -> bool
    ensures { result ≡ not (every (λ k. eqb (get_or ons (before k) 0) 0
        || eqb (get_or offs (before k) 0) 0) day.hours.0) }
{
    for k in 0..usize::from(day.hours.0) {
        if ons[k] != 0 && offs[k] != 0 {
            return true;
        }
    }
    false
}

// The mark of an hour that has one of two, or else 0.
fn one_of(on: u8, off: u8) -> u8
    ensures { result ≡ one_of on off }
{
    if on == 0 { off } else { on }
}

// The marks of the hours of a day, and 0 past them.
fn merged(ons: [u8; HOURS], offs: [u8; HOURS], day: Day) -> [u8; HOURS]
    ensures { result ≡ padded 0 (λ i. one_of (get_or ons i 0) (get_or offs i 0)) day.hours.0 most_hours }
{
    let mut orders = [0u8; HOURS];
    for k in 0..usize::from(day.hours.0) {
        orders[k] = one_of(ons[k], offs[k]);
    }
    orders
}

// The orders that two lists of windows give a day, or 14 or 15.
pub fn fill(on: &[u16], off: &[u16], first: Hour, hours: Hour) -> Result<[u8; HOURS], Refusal>
    ensures ok { IfOk result (λ orders. (first_of (calendar_tests on.now off.now first.0 hours.0 []) ≡ 0)
        × (orders ≡ filled_orders on.now off.now first.0 hours.0)) }
    ensures err { IfErr result (λ r. (r.0 ≡ first_of (calendar_tests on.now off.now first.0 hours.0 []))
        × (r.0 ≢ 0)) }
{
    if !is_day(first, hours) {
        return Err(Refusal(14));
    }
    let day = Day { first, hours };
    let Some(ons) = windows::survey(on, day, 1) else {
        return Err(Refusal(14));
    };
    let Some(offs) = windows::survey(off, day, 2) else {
        return Err(Refusal(14));
    };
    if meet(ons, offs, day) {
        return Err(Refusal(15));
    }
    Ok(merged(ons, offs, day))
}
