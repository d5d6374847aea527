// The numbers of an hour of a list: its output, its marks, and the sums that the constraints compare (model's
// specs/Marks and specs/Constraints). A sum of marks is the difference of two running counts (specs/Counted), which
// have the marks outside the day too. Only
// other crates of this repository call what has a `requires` here, with a case within the limits.
#![tactic(auto)]

pub mod counted;
pub mod counts;
pub mod marks;
pub mod numbered;
pub mod stages;

ghost use Rattle.std.specs.Prelude.{◌≤◌};
ghost use Rattle.hours.specs.Numbered.{Numbered};

use crate::counted::Counts;
use crate::counts::{BELOW, between};
use crate::marks::{Marks, marks_of, output_at};
use crate::stages::{Sequence, sequence_at};
use quantities::{Hour, Output};

// Of hour k, which counts from 1 as in the rules; at hour 0 both outputs are p(0), and there is no mark of a start or a
// stop. Marks and counts of marks are bare numbers.
#[derive(Clone, Copy)]
pub struct Numbers {
    // p(k) and p(k−1)
    pub output: Output,
    pub earlier: Output,
    pub marks: Marks,
    // the start-ups and the shut-downs that hour k lies in, counted, with what they prescribe
    pub startup: Sequence,
    pub shutdown: Sequence,
    // stops in DD and in UD + DD − 1 hours from hour k
    pub falling: u8,
    pub meeting: u8,
}

// The numbers of hour k, by the starts and the stops before each hour.
pub fn numbers_at(counts: &Counts<'_>, k: Hour) -> Numbers
    requires { k.0 ≤ counts.now.case.now.case.hours }
    ensures { Numbered counts.now.case.now.case counts.now.list.now k.0 result }
{
    let case = &counts.case.case;
    let at = k.0;
    let rises = case.rises as u16;
    let falls = case.falls as u16;
    let fallen = Hour(at + falls);
    let met = Hour(at + rises + falls - 1);
    let output = output_at(case, counts.list, k);
    let earlier = output_at(case, counts.list, k.less(Hour(1)));
    let marks = marks_of(earlier, output);
    let startup = sequence_at(case.rise, case.rises, counts.starts, Hour(at + BELOW));
    let shutdown = sequence_at(case.fall, case.falls, counts.stops, fallen);
    Numbers {
        output,
        earlier,
        marks,
        startup,
        shutdown,
        falling: between(counts.stops, k, fallen),
        meeting: between(counts.stops, k, met),
    }
}
