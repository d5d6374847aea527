// The backward pass: the layers back from the end of the day, of which every l-th is kept in the working numbers, and
// the entries of all hours. The definitions are those of cells' specs/Table and specs/Ahead and of slots' specs/Saved.
// The function is called by crates of this repository, which keep what it asks for.
#![tactic(auto)]

ghost use Rattle.std.specs.Prelude.{◌≡◌, length};
ghost use Rattle.machine.specs.Lengths.{entries_length};
ghost use Rattle.cells.specs.Ahead.{tariffs};
ghost use Rattle.cells.specs.Table.{Entries};
ghost use Rattle.slots.specs.Saved.{Slotted, Saved};

use cells::ahead::DayAhead;
use machine::{ENTRIES, ROW, SIDE};
use quantities::Hour;

// The entries of all hours, and every l-th layer, in a slot of n numbers. It makes what `Passed` holds, so the parts
// come one by one.
pub fn all_entries(
    day: &DayAhead<'_>,
    l: Hour,
    n: usize,
    entries: &mut [i64; ENTRIES],
    work: &mut [i64],
)
    requires slotted { (Slotted day.now.unit l.0 n (length work.old)) × (length entries.old ≡ entries_length) }
    ensures { (Entries day.now.unit (tariffs day.now) 0 entries.new)
        × (Saved day.now.unit (tariffs day.now) l.0 n 0 work.new) }
{
    let u = day.unit;
    layers::last_entries(day, entries);
    let mut row = [0i64; ROW];
    let mut side = [0i64; SIDE];
    rows::end_row(u, &mut row);
    sides::end_side(u, &mut side);
    for k in (0..u.hours.0).rev() {
        layers::step_hour(day, Hour(k), entries, &mut row, &mut side);
        layers::enter(day, Hour(k), &row, entries);
        slots::save_if(u, Hour(k), l, n, &row, &side, work);
    }
}
