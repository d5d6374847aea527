// Running counts of starts and of stops (specs/Counted). At place k of the stops stand the marks of the hours before
// hour k; the starts are STAGES places on, since they begin with the hours below 1. The marks of the hours from one to
// before another are the difference of two places.
ghost use Rattle.std.specs.Prelude.{◌≡◌, ◌&&◌, ℕ, ◌-◌, ◌≤◌, leb, eqb, replicate};
ghost use Rattle.cases.specs.Symbols.{bit, DD, PD, last};
ghost use Rattle.day.specs.Marks.{starting, z};
ghost use Rattle.hours.specs.Counted.{counts_length, last_count, counted, start_of, Running, Counted};

use crate::marks::{marks_of, output_at};
use cases::admitted::Admitted;
use cases::{HOURS, STAGES};
use quantities::{Hour, Output};

// Places of the counts: the hours of a day, and the longest start-up and shut-down around them; the last of them.
pub const COUNTS: usize = HOURS + 2 * STAGES;

const LAST: usize = COUNTS - 1;

// Hours below 1 that the counts of the starts begin with.
pub const BELOW: u16 = STAGES as u16;

// The mark of a start in hour n − STAGES.
fn start_at(case: &Admitted, list: &[u16], n: usize) -> u8
    requires { n ≤ last_count }
    ensures { result ≡ start_of case.now.case list.now n }
{
    if n <= STAGES {
        return u8::from(n + usize::from(case.case.upstage) == STAGES + 1);
    }
    if case.case.hours < n - STAGES {
        return 0;
    }
    let k = Hour((n - STAGES) as u16);
    let was = output_at(&case.case, list, k.less(Hour(1)));
    marks_of(was, output_at(&case.case, list, k)).start
}

// 1 where a day that ends at this output closes at entry i of the shut-down trajectory, else 0.
fn closing(case: &Admitted, end: Output, i: usize) -> u8
    ensures { result ≡ bit (leb 2 i && (leb i (DD case.now.case) && eqb end.0 (PD case.now.case i))) }
{
    if i < 2 {
        return 0;
    }
    if case.case.falls < i {
        return 0;
    }
    u8::from(end == case.case.fall[i - 1])
}

// The mark of a stop in hour k, from hour 1 on; `started` start-ups hold hour T.
fn stop_at(case: &Admitted, list: &[u16], started: u8, k: Hour) -> u8
    requires le_k { 1 ≤ k.0 }
    requires started_value { started ≡ starting case.now.case list.now (last case.now.case) }
    ensures { result ≡ z case.now.case list.now k.0 }
{
    let hours = case.case.hours;
    let at = usize::from(k.0);
    if at <= hours {
        let was = output_at(&case.case, list, k.less(Hour(1)));
        return marks_of(was, output_at(&case.case, list, k)).stop;
    }
    let end = hours + case.case.falls + 1;
    if end < at {
        return 0;
    }
    if started != 0 {
        return 0;
    }
    closing(
        case,
        output_at(&case.case, list, Hour(hours as u16)),
        end - at,
    )
}

// The counts of the starts of a list, in place of zeros.
fn count_starts(case: &Admitted, list: &[u16], starts: &mut [u8; COUNTS])
    requires { starts.old ≡ replicate counts_length 0 }
    ensures { Running (start_of case.now.case list.now) last_count starts.new }
{
    let mut marks = 0;
    for n in 1..LAST {
        marks += start_at(case, list, n);
        starts[n + 1] = marks;
    }
}

// The counts of its stops, in place of zeros.
fn count_stops(case: &Admitted, list: &[u16], started: u8, stops: &mut [u8; COUNTS])
    requires started_value { started ≡ starting case.now.case list.now (last case.now.case) }
    requires stops_value { stops.old ≡ replicate counts_length 0 }
    ensures { Running (z case.now.case list.now) last_count stops.new }
{
    let mut marks = 0;
    for k in 1..LAST {
        marks += stop_at(case, list, started, Hour(k as u16));
        stops[k + 1] = marks;
    }
}

// The counts of the starts and of the stops of a list, in place of zeros.
pub fn count_marks(
    case: &Admitted,
    list: &[u16],
    starts: &mut [u8; COUNTS],
    stops: &mut [u8; COUNTS],
)
    requires { (starts.old ≡ replicate counts_length 0) × (stops.old ≡ replicate counts_length 0) }
    ensures { Counted case.now.case list.now starts.new stops.new }
{
    count_starts(case, list, starts);
    let next = Hour(case.case.hours as u16 + BELOW + 1);
    let started = between(starts, next.less(Hour(case.case.rises as u16)), next);
    count_stops(case, list, started, stops);
}

// The marks of the hours from one to before another.
pub fn between(counts: &[u8; COUNTS], from: Hour, to: Hour) -> u8
    requires from_le_to { (from.0 ≤ to.0) × (to.0 ≤ last_count) }
    requires by_index { (f : ℕ → ℕ) × Running f last_count counts.now }
    ensures { (f : ℕ → ℕ) → Running f last_count counts.now
        → result ≡ counted f to.0 - counted f from.0 }
{
    counts[usize::from(to.0)] - counts[usize::from(from.0)]
}
