// The choice of an hour, from what the states after it are worth: looked up in the layer's slot, or in the layer or the
// row of the lock that is kept. The definitions are those of machine's specs/Moves, cells' specs/Table, slots'
// specs/Saved, locks' specs/Locked and specs/Held. Each function is called by crates of this repository, which
// keep what it asks for.
#![tactic(auto)]

ghost use Rattle.std.specs.Prelude.{◌≡◌, ℕ, ◌+◌, ◌-◌, ◌≤◌, ◌<◌, length};
ghost use Rattle.machine.specs.Search.{choice_at};
ghost use Rattle.machine.specs.Moves.{Tariff, machine, worth, chosen, Worths};
ghost use Rattle.machine.specs.Fit.{Fair};
ghost use Rattle.machine.specs.Proper.{Proper};
ghost use Rattle.cells.specs.Ahead.{tariff, tariffs};
ghost use Rattle.cells.specs.Picks.{pick_of};
ghost use Rattle.cells.specs.Table.{Sized, Ahead, entry, lock_of, cells_of};
ghost use Rattle.machine.specs.Lengths.{side_length, most_places};
ghost use Rattle.slots.specs.Saved.{RowAt, SavedAt, Slotted, Saved};
ghost use Rattle.locks.specs.Locked.{lock_end};
ghost use Rattle.locks.specs.Held.{Free, Ready};

use cells::Pick;
use cells::ahead::HourAhead;
use locks::Held;
use machine::{PLACE, ROW, SIDE, State};
use quantities::{HalfMills, Hour};
use slots::passed::Passed;

// From the layer at `off`, where no lock is looked at.
pub fn from_slot(hour: &HourAhead<'_>, s: State, off: usize, work: &[i64], e: HalfMills) -> Pick
    requires proper { (Proper hour.now.unit s) × (lock_of s ≤ 1)
        × (off + (cells_of hour.now.unit + side_length) ≤ length work.now) }
    requires sized { (w : Worths) × Sized w × SavedAt hour.now.unit w off work.now × (e.0 ≡ entry hour.now.unit w) }
    ensures { (w : Worths) → Sized w → SavedAt hour.now.unit w off work.now → e.0 ≡ entry hour.now.unit w
        → result ≡ pick_of (chosen hour.now.unit (tariff hour.now) w s) }
{
    let mid = off + rows::cells_of(hour.unit);
    let end = mid + SIDE;
    choices::choose(hour, s, &work[off..mid], &work[mid..end], e)
}

// From the row at `off`, inside a lock.
pub fn from_row(hour: &HourAhead<'_>, s: State, off: usize, kept: &[i64], e: HalfMills) -> Pick
    requires proper { (Proper hour.now.unit s) × (1 < lock_of s) × (off + cells_of hour.now.unit ≤ length kept.now) }
    requires sized { (w : Worths) × Sized w × RowAt hour.now.unit w (lock_of s - 1) off kept.now
        × (e.0 ≡ entry hour.now.unit w) }
    ensures { (w : Worths) → Sized w → RowAt hour.now.unit w (lock_of s - 1) off kept.now
        → e.0 ≡ entry hour.now.unit w → result ≡ pick_of (chosen hour.now.unit (tariff hour.now) w s) }
{
    let side = [0i64; SIDE];
    let end = off + rows::cells_of(hour.unit);
    choices::choose(hour, s, &kept[off..end], &side, e)
}

// From a row and a side.
pub fn from_layer(
    hour: &HourAhead<'_>,
    s: State,
    row: &[i64; ROW],
    side: &[i64; SIDE],
    e: HalfMills,
) -> Pick
    requires proper { Proper hour.now.unit s }
    requires ahead { (w : Worths) × Ahead hour.now.unit w (lock_of s) row.now side.now × (e.0 ≡ entry hour.now.unit w) }
    ensures { (w : Worths) → Ahead hour.now.unit w (lock_of s) row.now side.now → e.0 ≡ entry hour.now.unit w
        → result ≡ pick_of (chosen hour.now.unit (tariff hour.now) w s) }
{
    choices::choose(hour, s, row, side, e)
}

// From the end of the day.
pub fn from_end(hour: &HourAhead<'_>, s: State, e: HalfMills) -> Pick
    requires proper { Proper hour.now.unit s }
    requires by_index { (day : ℕ → Tariff) × ((i : ℕ) → Fair (day i))
        × (e.0 ≡ entry hour.now.unit (worth hour.now.unit day hour.now.unit.hours.0)) }
    ensures { (day : ℕ → Tariff) → ((i : ℕ) → Fair (day i))
        → e.0 ≡ entry hour.now.unit (worth hour.now.unit day hour.now.unit.hours.0)
        → result ≡ pick_of (chosen hour.now.unit (tariff hour.now)
        (worth hour.now.unit day hour.now.unit.hours.0) s) }
{
    let mut row = [0i64; ROW];
    let mut side = [0i64; SIDE];
    rows::end_row(hour.unit, &mut row);
    sides::end_side(hour.unit, &mut side);
    from_layer(hour, s, &row, &side, e)
}

// From the layer of hour k, in its slot or among those that are kept, or from the end of the day, where no lock goes
// beyond the hour; the hour is the one before. What it says holds of every day whose layers are saved, so it takes the
// slots, by `stride`, `width` and `work`, and no pass, which has one day.
pub fn from_after(
    hour: &HourAhead<'_>,
    k: Hour,
    s: State,
    held: &Held,
    stride: Hour,
    width: usize,
    work: &[i64],
    e: HalfMills,
) -> Pick
    requires proper { (Proper hour.now.unit s) × (k.0 ≤ hour.now.unit.hours.0)
        × (lock_end hour.now.unit k.0 (lock_of s - 1) ≤ k.0) }
    requires slotted { (Slotted hour.now.unit stride.0 width (length work.now))
        × (held.now.to.0 ≤ k.0 + most_places) }
    requires by_index { (day : ℕ → Tariff) × ((i : ℕ) → Fair (day i))
        × Saved hour.now.unit day stride.0 width 0 work.now
        × Free hour.now.unit day stride.0 k.0 held.now.to.0 held.now.numbers
        × (e.0 ≡ entry hour.now.unit (worth hour.now.unit day k.0)) }
    ensures { (day : ℕ → Tariff) → ((i : ℕ) → Fair (day i)) → Saved hour.now.unit day stride.0 width 0 work.now
        → Free hour.now.unit day stride.0 k.0 held.now.to.0 held.now.numbers
        → e.0 ≡ entry hour.now.unit (worth hour.now.unit day k.0)
        → result ≡ pick_of (chosen hour.now.unit (tariff hour.now) (worth hour.now.unit day k.0) s) }
{
    if k < hour.unit.hours {
        let slot = slots::slot_from(k, stride);
        if slot.hour == k {
            return from_slot(hour, s, slot.number * width, work, e);
        }
        let at = (held.to.0 - k.0 - 1) as usize;
        return from_slot(hour, s, at * PLACE, &held.numbers, e);
    }
    from_end(hour, s, e)
}

// The choice of hour k in any state; what is kept is what it looks at.
pub fn choose(passed: &Passed<'_>, k: Hour, s: State, held: &Held) -> Pick
    requires k_lt_hours { (k.0 < passed.now.day.unit.hours.0) × (Proper passed.now.day.unit s) }
    requires ready { Ready passed.now.day.unit (tariffs passed.now.day) passed.now.stride.0 k.0 (lock_of s)
        held.now.to.0 held.now.numbers }
    ensures { result ≡ pick_of (choice_at (machine passed.now.day.unit (tariffs passed.now.day)) k.0 s) }
{
    let after = k.next();
    let entries = passed.entries;
    let e = money::value_at(entries, after.0 as usize);
    let hour = passed.day.at(k);
    let b = locks::end_of(passed.day.unit, k, s);
    if after < b {
        let at = (held.to.0 - after.0 - 1) as usize;
        return from_row(&hour, s, at * PLACE, &held.numbers, e);
    }
    from_after(
        &hour,
        after,
        s,
        held,
        passed.stride,
        passed.width,
        passed.work,
        e,
    )
}
