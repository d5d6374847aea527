// The first breach of a day: the earliest hour, hour 0 and those of a stop after T included, and there the lowest rule
// (day's specs/Rules). The starts and stops of the list are counted once.
ghost use Rattle.std.specs.Prelude.{◌≡◌, ◌+◌, ◌-◌, length};
ghost use Rattle.day.specs.Marks.{y};
ghost use Rattle.day.specs.Rules.{breach_from, breach};
ghost use Rattle.broken.specs.Elapsed.{Held};
ghost use Rattle.rules.specs.Found.{found};

use broken::times::{later, opening, passed};
use broken::{broken_after, broken_at, broken_edge};
use cases::Breach;
use cases::admitted::Admitted;
use hours::counted::Counts;
use hours::counts::{COUNTS, between, count_marks};
use hours::numbered::NumberedHour;
use hours::numbers_at;
use quantities::Hour;

// The first breach of the hours above T, with the hours since the latest start at hour T + 1.
fn late_breach(counts: &Counts<'_>, since: Hour) -> Option<Breach>
    requires { Held counts.now.case.now.case (y counts.now.case.now.case counts.now.list.now)
        (counts.now.case.now.case.hours + 1) since.0 }
    ensures { breach_from counts.now.case.now.case counts.now.list.now (counts.now.case.now.case.hours + 1)
        (counts.now.case.now.case.falls - 1) ≡ found result }
{
    let case = &counts.case.case;
    let mut start = since;
    for k in case.hours + 1..case.hours + case.falls {
        let hour = Hour(k as u16);
        let rule = broken_after(case, between(counts.stops, hour, hour.next()), start);
        if rule != 0 {
            return Some(Breach { hour, rule });
        }
        start = later(start, 0);
    }
    None
}

// The first breach of the hours from 1 on. The order of hour i + 1 is at place i.
fn later_breach(counts: &Counts<'_>) -> Option<Breach>
    ensures { breach_from counts.now.case.now.case counts.now.list.now 1
        (counts.now.case.now.case.hours + counts.now.case.now.case.falls - 1) ≡ found result }
{
    let case = &counts.case.case;
    let mut since = opening(case);
    for i in 0..case.hours {
        let hour = Hour(i as u16 + 1);
        let numbered = NumberedHour {
            counts: *counts,
            hour,
            numbers: numbers_at(counts, hour),
        };
        let rule = broken_at(&numbered, since, case.orders[i]);
        if rule != 0 {
            return Some(Breach { hour, rule });
        }
        since = passed(since, &numbered);
    }
    late_breach(counts, since.start)
}

// The first breach of the day, for a list of T outputs.
#[inline(always)]
pub fn first_breach(case: &Admitted, list: &[u16]) -> Option<Breach>
    requires { length list.now ≡ case.now.case.hours }
    ensures { breach case.now.case list.now ≡ found result }
{
    let mut starts = [0u8; COUNTS];
    let mut stops = [0u8; COUNTS];
    count_marks(case, list, &mut starts, &mut stops);
    let counts = Counts {
        case,
        list,
        starts: &starts,
        stops: &stops,
    };
    let first = NumberedHour {
        counts,
        hour: Hour(0),
        numbers: numbers_at(&counts, Hour(0)),
    };
    let edge = broken_edge(&first);
    if edge != 0 {
        return Some(Breach {
            hour: Hour(0),
            rule: edge,
        });
    }
    later_breach(&counts)
}
