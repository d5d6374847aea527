// Rules 21 to 23 of an hour (day's specs/Rules), and the hours since the latest start and stop, carried from hour to
// hour.
ghost use Rattle.std.specs.Prelude.{◌≡◌, ◌&&◌, ◌||◌, List, ℕ, ◌+◌, ◌<◌, leb, eqb};
ghost use Rattle.quantities.specs.Widths.{words};
ghost use Rattle.hours.specs.Of.{case_of, list_of};
ghost use Rattle.broken.specs.Elapsed.{Held, Elapsed};

use cases::Case;
use hours::numbered::NumberedHour;
use quantities::Hour;

// At an hour: the hours since the latest start before it, and since the latest stop; with none, h and the hours passed.
#[derive(Clone, Copy)]
pub struct Since {
    pub start: Hour,
    pub stop: Hour,
}

// At hour 1.
pub fn opening(case: &Case) -> Since
    ensures { (l : List ℕ) → Elapsed case.now l 1 result }
{
    let held = case.elapsed;
    Since {
        start: held,
        stop: held,
    }
}

// Hours since a mark, at the next hour.
pub fn later(hours: Hour, mark: u8) -> Hour
    requires { hours.0 + 1 < words }
    ensures { (c : Case) (f : ℕ → ℕ) (k : ℕ) → 0 < k → mark ≡ f k → Held c f k hours.0
        → Held c f (k + 1) result.0 }
{
    if mark == 1 { Hour(1) } else { hours.next() }
}

// At the hour after an hour.
pub fn passed(since: Since, hour: &NumberedHour<'_>) -> Since
    requires { (since.start.0 + 1 < words) × (since.stop.0 + 1 < words) }
    ensures { 0 < hour.now.hour.0 → Elapsed (case_of hour.now) (list_of hour.now) hour.now.hour.0 since
        → Elapsed (case_of hour.now) (list_of hour.now) (hour.now.hour.0 + 1) result }
{
    let marks = hour.numbers.marks;
    Since {
        start: later(since.start, marks.start),
        stop: later(since.stop, marks.stop),
    }
}

// Rules 21 and 22: a minimum time, at the mark that ends it.
pub fn kept_time(mark: u8, least: Hour, since: Hour) -> bool
    ensures { result ≡ (eqb mark 0 || leb least.0 since.0) }
{
    (mark == 0) | (least <= since)
}

// Rule 23: the order of an hour, by the definitions' numbers.
pub fn kept_order(order: u8, online: u8) -> bool
    ensures { result ≡ (eqb order 0 || (eqb order 1 && eqb online 1 || eqb order 2 && eqb online 0)) }
{
    (order == 0) | (((order == 1) & (online == 1)) | ((order == 2) & (online == 0)))
}
