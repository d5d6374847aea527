// The lines of the program's text, put into lent bytes from a place on (model's specs/Printed). Each function leaves
// every other byte as it was and returns the place past its lines. The functions are called by crates of this
// repository, which keep what they ask for.
#![tactic(auto)]

pub mod parts;

ghost use Rattle.std.specs.Prelude.{◌++◌, ◌+◌, ◌≤◌, length};
ghost use Rattle.cases.specs.Limits.{most_hours};
ghost use Rattle.model.specs.Printed.{sign, profit_line, refused_line, hour_line, hour_lines};
ghost use Rattle.lines.specs.Puts.{Puts};

use cases::Case;
use parts::{put, put_field};
use quantities::{HalfMills, Hour, Output};

// Puts "refused" and a number.
pub fn put_refused(out: &mut [u8], number: u8) -> usize
    requires { length (refused_line number) ≤ length out.old }
    ensures { Puts out.old 0 (refused_line number) out.new result }
{
    let at = put(out, 0, b"refused ");
    put_field(out, at, u64::from(number), b"\n")
}

// Puts the sign of an amount.
fn put_sign(out: &mut [u8], at: usize, v: HalfMills) -> usize
    requires { at + length (sign v.0) ≤ length out.old }
    ensures { Puts out.old at (sign v.0) out.new result }
{
    if v < HalfMills(0) {
        return put(out, at, b"-");
    }
    at
}

// Puts "profit" and an amount.
fn put_profit(out: &mut [u8], v: HalfMills) -> usize
    requires { length (profit_line v.0) ≤ length out.old }
    ensures { Puts out.old 0 (profit_line v.0) out.new result }
{
    let word = put(out, 0, b"profit ");
    let at = put_sign(out, word, v);
    put_field(out, at, money::magnitude(v), b"\n")
}

// Puts an hour that goes from one output to another.
fn put_hour(out: &mut [u8], at: usize, hour: Hour, before: Output, output: Output) -> usize
    requires { at + length (hour_line hour.0 output.0 (output.0 + before.0)) ≤ length out.old }
    ensures { Puts out.old at (hour_line hour.0 output.0 (output.0 + before.0))
        out.new result }
{
    let first = put_field(out, at, u64::from(hour.0), b" ");
    let second = put_field(out, first, u64::from(output.0), b" ");
    let half_hours = u64::from(output.0) + u64::from(before.0);
    put_field(out, second, half_hours, b"\n")
}

// Puts the hours of a case with a list that has them.
fn put_hours(out: &mut [u8], at: usize, case: Case, outputs: &[u16]) -> usize
    requires hours_in_bounds { (case.hours ≤ length outputs.now) × (case.hours ≤ most_hours) }
    requires hours_in_bounds_2 { at + length (hour_lines case outputs.now case.hours) ≤ length out.old }
    ensures { Puts out.old at (hour_lines case outputs.now case.hours)
        out.new result }
{
    let mut before = case.initial;
    let mut next = at;
    for i in 0..case.hours {
        let output = Output(outputs[i]);
        // a cast, since `From` does not narrow and `try_from` would test what is asked
        next = put_hour(out, next, Hour(i as u16 + 1), before, output);
        before = output;
    }
    next
}

// Puts the profit and the hours of a case with a list that has them.
pub fn put_day(out: &mut [u8], profit: HalfMills, case: Case, outputs: &[u16]) -> usize
    requires hours_in_bounds { (case.hours ≤ length outputs.now) × (case.hours ≤ most_hours) }
    requires hours_in_bounds_2 { length (profit_line profit.0 ++ hour_lines case outputs.now case.hours) ≤ length out.old }
    ensures { Puts out.old 0
        (profit_line profit.0 ++ hour_lines case outputs.now case.hours) out.new result }
{
    let at = put_profit(out, profit);
    put_hours(out, at, case, outputs)
}
