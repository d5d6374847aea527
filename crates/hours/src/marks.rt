// The outputs of a list and the marks v, y and z of an hour, by the outputs at its ends (day's specs/Marks).
ghost use Rattle.std.specs.Prelude.{◌≡◌};
ghost use Rattle.day.specs.Marks.{p};
ghost use Rattle.hours.specs.Marked.{Online, Began, Marked};

use cases::Case;
use quantities::{Hour, Output};

// 1 where the unit is on-line at the end of an hour and at its beginning, where it starts and where it stops, else 0.
#[derive(Clone, Copy)]
pub struct Marks {
    pub online: u8,
    pub wasonline: u8,
    pub start: u8,
    pub stop: u8,
}

// p(k)
pub fn output_at(case: &Case, list: &[u16], k: Hour) -> Output
    ensures { result.0 ≡ p case.now list.now k.0 }
{
    if k == Hour(0) {
        return case.initial;
    }
    match list.get(usize::from(k.0) - 1) {
        Some(&output) => Output(output),
        None => Output(0),
    }
}

// 1 where the unit is on-line at p.
fn online(p: Output) -> u8
    ensures { Online p.0 result }
{
    u8::from(Output(0) < p)
}

// Of the marks of two outputs: 1 where the unit is off-line at the first and on-line at the second.
fn began(first: u8, second: u8) -> u8
    ensures { Began first second result }
{
    if first == 0 { second } else { 0 }
}

// The marks of an hour from output q to p.
pub fn marks_of(q: Output, p: Output) -> Marks
    ensures { Marked q.0 p.0 result }
{
    let was = online(q);
    let is = online(p);
    Marks {
        online: is,
        wasonline: was,
        start: began(was, is),
        stop: began(is, was),
    }
}
