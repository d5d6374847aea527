// Every l-th layer of a day in a slot of its own among the working numbers: how wide a slot is and how many layers from
// one to the next, a layer into its slot and out of it, and the layer of any hour, made again from the next that is
// kept. The definitions are those of specs/Saved and of cells' specs/Table and specs/Ahead. Each function is called by
// crates of this repository, which keep what it asks for.
#![tactic(auto)]

pub mod passed;

ghost use Rattle.std.specs.Prelude.{◌≡◌, ℕ, suc, ◌+◌, ◌-◌, ◌*◌, ◌≤◌, ◌<◌, length, get_or, pos};
ghost use Rattle.laws.specs.Placed.{Part};
ghost use Rattle.cases.specs.Limits.{long_work};
ghost use Rattle.quantities.specs.Widths.{words};
ghost use Rattle.machine.specs.Fit.{Fit};
ghost use Rattle.machine.specs.Lengths.{side_length};
ghost use Rattle.machine.specs.Moves.{Tariff, worth, Worths};
ghost use Rattle.window.specs.Rows.{Written};
ghost use Rattle.cells.specs.Ahead.{tariffs};
ghost use Rattle.cells.specs.Table.{Entries, Layer, cells_of};
ghost use Rattle.slots.specs.Saved.{SavedAt, Kept, Slotted, Saved, Based, slot_from};

use crate::passed::Passed;
use cells::ahead::DayAhead;
use machine::{ENTRIES, ROW, SIDE, Unit};
use quantities::Hour;

// The numbers of a slot, and how many layers from one that is kept to the next: as few as so many numbers have room
// for. Of a unit alone, before the pass, so that the unit fits is a clause.
pub fn width_of(u: Unit) -> usize
    requires { Fit u }
    ensures { result ≡ cells_of u + side_length }
{
    rows::cells_of(u) + SIDE
}

pub fn stride_of(u: Unit, n: usize, room: usize) -> Hour
    requires fit { Fit u }
    requires n_value { (n ≡ cells_of u + side_length) × (n ≤ room) × (room ≤ long_work) }
    ensures { Slotted u result.0 n room }
{
    let hours = u.hours.0 as usize;
    let m = count::up_to(room, n, hours);
    Hour(count::whole(hours + m - 1, m) as u16)
}

// A slot, by its number from 0, and the hour whose layer it has.
#[derive(Clone, Copy)]
pub struct Slot {
    pub number: usize,
    pub hour: Hour,
}

// The first slot whose hour is not before hour k.
pub fn slot_from(k: Hour, l: Hour) -> Slot
    requires { (1 ≤ l.0) × (k.0 + l.0 < words) }
    ensures { (result.number ≡ slot_from l.0 k.0) × (result.hour.0 ≡ result.number * l.0) }
{
    let number = count::whole((k.0 + l.0 - 1) as usize, l.0 as usize);
    Slot {
        number,
        hour: Hour(number as u16 * l.0),
    }
}

// The first n of `from` into the working numbers, from `off` on. A loop, here and in `copy_in`: `copy_from_slice`
// between lent numbers is a call of `memmove`, which the library does not take from outside (tests/division). The two
// go in two directions.
pub fn copy_out(work: &mut [i64], off: usize, from: &[i64], n: usize)
    requires { (off + n ≤ length work.old) × (n ≤ length from.now) }
    ensures { Part (pos 0) work.old work.new off 0 n
        (λ i. get_or from.now i (pos 0)) }
{
    for i in 0..n {
        money::store(work, off + i, money::value_at(from, i));
    }
}

// The working numbers from `off` on into the first n of `to`.
pub fn copy_in(work: &[i64], off: usize, to: &mut [i64], n: usize)
    requires { (off + n ≤ length work.now) × (n ≤ length to.old) }
    ensures { Written to.old to.new 0 n
        (λ i. get_or work.now (off + i) (pos 0)) }
{
    for i in 0..n {
        money::store(to, i, money::value_at(work, off + i));
    }
}

// The layer into the working numbers, from `off` on.
pub fn save_layer(u: Unit, off: usize, row: &[i64; ROW], side: &[i64; SIDE], work: &mut [i64])
    requires fit { Fit u }
    requires side_length_in_bounds { off + (cells_of u + side_length) ≤ length work.old }
    requires u_in_bounds { (cells_of u ≤ length row.now) × (length side.now ≡ side_length) }
    ensures { (w : Worths) → Layer u w row.now side.now
        → Kept u w off work.old work.new }
{
    let n = rows::cells_of(u);
    copy_out(work, off, row, n);
    copy_out(work, off + n, side, SIDE);
}

// The layer out of the working numbers, from `off` on.
pub fn load_layer(u: Unit, off: usize, work: &[i64], row: &mut [i64; ROW], side: &mut [i64; SIDE])
    requires fit { Fit u }
    requires side_length_in_bounds { off + (cells_of u + side_length) ≤ length work.now }
    requires u_in_bounds { (cells_of u ≤ length row.old) × (length side.old ≡ side_length) }
    ensures { (w : Worths) → SavedAt u w off work.now
        → Layer u w row.new side.new }
{
    let n = rows::cells_of(u);
    copy_in(work, off, row, n);
    copy_in(work, off + n, side, SIDE);
}

// The layer of hour k into its slot, if it has one. The pass is under way, so there is no `Passed` yet: its parts come
// one by one.
pub fn save_if(
    u: Unit,
    k: Hour,
    l: Hour,
    n: usize,
    row: &[i64; ROW],
    side: &[i64; SIDE],
    work: &mut [i64],
)
    requires fit { Fit u }
    requires k_lt_hours { (k.0 < u.hours.0) × (Slotted u l.0 n (length work.old)) }
    requires u_in_bounds { (cells_of u ≤ length row.now) × (length side.now ≡ side_length) }
    ensures { (day : ℕ → Tariff) → Layer u (worth u day k.0) row.now side.now
        → Saved u day l.0 n (suc k.0) work.old → Saved u day l.0 n k.0 work.new }
{
    let slot = slot_from(k, l);
    if slot.hour == k {
        save_layer(u, slot.number * n, row, side, work);
    }
}

// The first kept layer that is not before hour k, or the end of the day; its hour is returned. What it says holds of
// every day whose layers are saved, so it takes the slots, and no pass, which has one day.
pub fn base_layer(
    u: Unit,
    k: Hour,
    l: Hour,
    n: usize,
    work: &[i64],
    row: &mut [i64; ROW],
    side: &mut [i64; SIDE],
) -> Hour
    requires fit { Fit u }
    requires k_le_hours { (k.0 ≤ u.hours.0) × (Slotted u l.0 n (length work.now)) }
    requires u_in_bounds { (cells_of u ≤ length row.old) × (length side.old ≡ side_length) }
    ensures { (day : ℕ → Tariff) → Saved u day l.0 n 0 work.now
        → Based u day k.0 result.0 row.new side.new }
{
    let slot = slot_from(k, l);
    if slot.hour < u.hours {
        load_layer(u, slot.number * n, work, row, side);
        return slot.hour;
    }
    rows::end_row(u, row);
    sides::end_side(u, side);
    u.hours
}

// From the layer of hour h down to that of hour k.
pub fn descend(
    day: &DayAhead<'_>,
    h: Hour,
    k: Hour,
    entries: &[i64; ENTRIES],
    row: &mut [i64; ROW],
    side: &mut [i64; SIDE],
)
    requires based { (Based day.now.unit (tariffs day.now) k.0 h.0 row.old side.old)
        × (Entries day.now.unit (tariffs day.now) 0 entries.now) }
    ensures { Layer day.now.unit (worth day.now.unit (tariffs day.now) k.0) row.new side.new }
{
    for at in (k.0..h.0).rev() {
        layers::step_hour(day, Hour(at), entries, row, side);
    }
}

// The layer of hour k, made again from the first kept layer that is not before it.
pub fn layer_at(passed: &Passed<'_>, k: Hour, row: &mut [i64; ROW], side: &mut [i64; SIDE])
    requires k_le_hours { k.0 ≤ passed.now.day.unit.hours.0 }
    ensures { Layer passed.now.day.unit (worth passed.now.day.unit (tariffs passed.now.day) k.0) row.new side.new }
{
    let h = base_layer(
        passed.day.unit,
        k,
        passed.stride,
        passed.width,
        passed.work,
        row,
        side,
    );
    descend(&passed.day, h, k, passed.entries, row, side);
}
