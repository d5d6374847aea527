// The sections of a case file. Each reader gets its own section, a part of the file that begins at the section's own
// offset, and returns what it holds; its entries are counted up, and those past the count are zero (specs/Sections,
// cases' specs/Layout).
ghost use Rattle.std.specs.Prelude.{◌≡◌, false, [], ◌+◌, ◌*◌, ◌≤◌, length, get_or};
ghost use Rattle.cases.specs.Limits.{most_stages, most_hours};
ghost use Rattle.cases.specs.Forms.{unit_widths, width, entry_length};
ghost use Rattle.cases.specs.Layout.{signed, field_at, case_of};
ghost use Rattle.cases.specs.Refusals.{refusal1, refusal2_file};
ghost use Rattle.reader.specs.Sections.{trajectory_of, day_of, assembled};
ghost use Rattle.reader.specs.Tables.{table_of};

use crate::forms::Form;
use crate::numbers::{byte, mills, short_mills, word};
use crate::pairs::{form_of, section};
use cases::{Case, HOURS, STAGE_BYTES, STAGES};
use quantities::{Hour, Mills, Output};

// The outputs of a trajectory, and how many count: arrays as the record has them, since there is no heap.
#[derive(Clone, Copy)]
pub(crate) struct Trajectory {
    outputs: [Output; STAGES],
    count: usize,
}

// The prices and order bytes of a day, and how many count, likewise.
#[derive(Clone, Copy)]
pub(crate) struct Day {
    prices: [Mills; HOURS],
    orders: [u8; HOURS],
    count: usize,
}

// A trajectory's section.
fn read_trajectory(part: &[u8]) -> Trajectory
    requires { length part.now ≤ 2 * most_stages }
    ensures { result ≡ trajectory_of part.now }
{
    let count = count::whole(part.len(), STAGE_BYTES);
    let mut outputs = [Output(0); STAGES];
    for i in 0..count {
        outputs[i] = Output(word(part, STAGE_BYTES * i));
    }
    Trajectory { outputs, count }
}

// The price of the hour that begins at an offset.
#[tactic(auto, unfolding(cases::specs::Layout::field_at))]
fn price_at(part: &[u8], at: usize, form: Form) -> Mills
    requires { at + entry_length (table_of form) 3 ≤ length part.now }
    ensures { result.0 ≡ signed (field_at (get_or (table_of form) 3 []) part.now at 0) }
{
    match form {
        Form::Old => short_mills(part, at),
        Form::Two | Form::Three => mills(part, at),
    }
}

// The order byte of the hour that begins at an offset: its last.
#[tactic(auto, using(crate::proofs::SectionsLaws::order_last))]
fn order_at(part: &[u8], at: usize, form: Form) -> u8
    requires { at + entry_length (table_of form) 3 ≤ length part.now }
    ensures { result ≡ field_at (get_or (table_of form) 3 []) part.now at 1 }
{
    let last = at + (form.hour() - 1);
    part[last]
}

// The hours section.
fn read_day(part: &[u8], form: Form) -> Day
    requires { length part.now ≤ entry_length (table_of form) 3 * most_hours }
    ensures { result ≡ day_of (table_of form) part.now }
{
    let width = form.hour();
    let count = count::whole(part.len(), width);
    let mut prices = [Mills(0); HOURS];
    let mut orders = [0u8; HOURS];
    for i in 0..count {
        prices[i] = price_at(part, width * i, form);
        orders[i] = order_at(part, width * i, form);
    }
    Day {
        prices,
        orders,
        count,
    }
}

// The unit section, with what the other sections hold; a stage that it lacks is 0.
#[tactic(auto, unfolding(crate::specs::Sections::assembled))]
fn read_unit(part: &[u8], rise: Trajectory, fall: Trajectory, day: Day) -> Case
    requires { width unit_widths ≤ length part.now }
    ensures { result ≡ assembled part.now rise fall day }
{
    let Trajectory {
        outputs: rise,
        count: rises,
    } = rise;
    let Trajectory {
        outputs: fall,
        count: falls,
    } = fall;
    let Day {
        prices,
        orders,
        count: hours,
    } = day;
    Case {
        capacity: Output(word(part, 0)),
        minimum: Output(word(part, 2)),
        rampup: Output(word(part, 4)),
        rampdown: Output(word(part, 6)),
        minup: Hour(word(part, 8)),
        mindown: Hour(word(part, 10)),
        variable: mills(part, 12),
        fixed: mills(part, 16),
        startcost: mills(part, 20),
        stopcost: mills(part, 24),
        initial: Output(word(part, 28)),
        elapsed: Hour(word(part, 30)),
        upstage: byte(part, 32),
        downstage: byte(part, 33),
        rise,
        fall,
        prices,
        orders,
        rises,
        falls,
        hours,
    }
}

// The case of a file whose sections follow one another and have lengths that fit.
#[inline(never)]
pub fn case_of(file: &[u8]) -> Case
    requires file_value { refusal1 file.now ≡ false }
    requires file_value_2 { refusal2_file file.now ≡ false }
    ensures { result ≡ case_of file.now }
{
    let form = form_of(file);
    let rise = read_trajectory(section(file, 1));
    let fall = read_trajectory(section(file, 2));
    let day = read_day(section(file, 3), form);
    read_unit(section(file, 0), rise, fall, day)
}
