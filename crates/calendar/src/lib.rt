// The best day of a case by the calendar of a year (request F-3; model's specs/Calendar): the orders of a day come from
// two lists of windows, in place of the case's own. 14 and 15 refuse lists and day before any case is looked at.
#![tactic(auto)]

ghost use Rattle.std.specs.Prelude.{◌≡◌};
ghost use Rattle.cases.specs.Layout.{with_arrays};
ghost use Rattle.model.specs.Calendar.{calendar_of};

use cases::{Case, HOURS, Reading};
use quantities::{HalfMills, Hour, Refusal};

// The record with these orders in place of its own.
fn ordered(case: Case, orders: [u8; HOURS]) -> Case
    ensures { result ≡ with_arrays case case.rise case.fall case.prices orders }
{
    Case { orders, ..case }
}

// The best list of the case of a reading, on the day that the calendar orders. After 14 and 15 a refused reading is
// returned as it is; a T that is not the day's number of hours is 2; and the record is tested with its own orders,
// which are then replaced. On every number but 0 and 11 nothing is changed.
pub fn schedule_by_calendar(
    reading: Reading,
    on: &[u16],
    off: &[u16],
    first: Hour,
    hours: Hour,
    work: &mut [i64],
    outputs: &mut [u16],
) -> Result<HalfMills, Refusal>
    ensures answer { result ≡ (calendar_of reading.outcome reading.case on.now off.now
        first.0 hours.0 work.old outputs.old).answer }
    ensures work { work.new
        ≡ (calendar_of reading.outcome reading.case on.now off.now first.0 hours.0
        work.old outputs.old).work }
    ensures outputs { outputs.new
        ≡ (calendar_of reading.outcome reading.case on.now off.now first.0 hours.0
        work.old outputs.old).outputs }
{
    let orders = orders::fill(on, off, first, hours)?;
    // the form that document 01 names
    let outcome = reading.outcome;
    let Ok(()) = outcome else {
        return Err(outcome.unwrap_err());
    };
    let case = reading.case;
    if case.hours != hours.0 as usize {
        return Err(Refusal(2));
    }
    limits::tested(&case)?;
    let day = Reading {
        outcome: Ok(()),
        case: ordered(case, orders),
    };
    best::schedule(day, work, outputs)
}
