// The rows of a lock, made from the layer of the hour at which the lock ends, or the end of the day, and kept while the
// plan goes through its hours. The definitions are those of specs/Locked and slots' specs/Saved. Each function is
// called by crates of this repository, which keep what it asks for.
#![tactic(auto)]

ghost use Rattle.std.specs.Prelude.{◌≡◌, suc, ◌+◌, ◌-◌, ◌≤◌, ◌<◌, min, length, get_or, pos};
ghost use Rattle.laws.specs.Placed.{Part};
ghost use Rattle.machine.specs.Fit.{Fit};
ghost use Rattle.machine.specs.Proper.{Proper};
ghost use Rattle.cells.specs.Ahead.{tariffs};
ghost use Rattle.cells.specs.Table.{lock_of};
ghost use Rattle.locks.specs.Locked.{Locked, lock_end};
ghost use Rattle.machine.specs.Lengths.{most_places};

use machine::{KEPT, PLACE, PLACES, ROW, SIDE, State, Unit};
use quantities::Hour;
use slots::passed::Passed;

// What is kept of the hours ahead: rows of a lock, by the hour at which it ends, or layers, where that is 0; the hour
// before which they end; and their numbers.
#[derive(Clone, Copy)]
pub struct Held {
    pub end: Hour,
    pub to: Hour,
    pub numbers: [i64; KEPT],
}

// The hour at which the rows that state s looks at after hour k come to the end of its lock, or of the day.
pub fn end_of(u: Unit, k: Hour, s: State) -> Hour
    requires fit { Fit u }
    requires k_lt_hours { (k.0 < u.hours.0) × (Proper u s) }
    ensures { result.0 ≡ lock_end u (suc k.0) (lock_of s - 1) }
{
    let left = choices::lock_of(s).0.saturating_sub(1);
    Hour(k.0 + 1 + left).min(u.hours)
}

// The first n of a row into the kept numbers, from `off` on.
pub fn put(kept: &mut [i64; KEPT], off: usize, row: &[i64; ROW], n: usize)
    requires { (off + n ≤ length kept.old) × (n ≤ length row.now) }
    ensures { Part (pos 0) kept.old kept.new off 0 n
        (λ i. get_or row.now i (pos 0)) }
{
    kept[off..off + n].copy_from_slice(&row[..n]);
}

// The rows of a lock that ends at hour b, from hour k on, of as many hours as there are places.
pub fn fill(passed: &Passed<'_>, k: Hour, b: Hour, held: &mut Held)
    requires k_le_b { (k.0 ≤ b.0) × (b.0 ≤ passed.now.day.unit.hours.0) }
    ensures { (held.new.end.0 ≡ b.0) × (held.new.to.0 ≡ min b.0 (k.0 + most_places))
        × (Locked passed.now.day.unit (tariffs passed.now.day) k.0 held.new.to.0 b.0 held.new.numbers) }
{
    let day = passed.day;
    let to = b.min(Hour(k.0 + PLACES as u16));
    let mut row = [0i64; ROW];
    let mut side = [0i64; SIDE];
    slots::layer_at(passed, b, &mut row, &mut side);
    let wide = rows::cells_of(day.unit);
    rows::lock_down(&day, to, Hour(b.0 - to.0), wide, &mut row);
    for h in (k.0..to.0).rev() {
        rows::lock_hour(&day, Hour(h), wide, &mut row);
        let at = (to.0 - h - 1) as usize;
        put(&mut held.numbers, at * PLACE, &row, wide);
    }
    held.end = b;
    held.to = to;
}
