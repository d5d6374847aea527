// The layers of hours in a row, made from the next that has a slot. The definitions are those of slots' specs/Spanned.
// The function is called by crates of this repository, which keep what it asks for.
#![tactic(auto)]

ghost use Rattle.std.specs.Prelude.{◌≡◌, ◌+◌, ◌≤◌, min};
ghost use Rattle.machine.specs.Lengths.{most_places};
ghost use Rattle.cells.specs.Ahead.{tariffs};
ghost use Rattle.slots.specs.Spanned.{Spanned};

use machine::{KEPT, PLACE, PLACES, ROW, SIDE};
use quantities::Hour;
use slots::passed::Passed;

// The layers from hour k on to before hour b, of as many hours as there are places; the hour before which they end.
pub fn fill(passed: &Passed<'_>, k: Hour, b: Hour, kept: &mut [i64; KEPT]) -> Hour
    requires k_le_b { (k.0 ≤ b.0) × (b.0 ≤ passed.now.day.unit.hours.0) }
    ensures { (result.0 ≡ min b.0 (k.0 + most_places))
        × (Spanned passed.now.day.unit (tariffs passed.now.day) k.0 result.0 kept.new) }
{
    let to = b.min(Hour(k.0 + PLACES as u16));
    let mut row = [0i64; ROW];
    let mut side = [0i64; SIDE];
    slots::layer_at(passed, to, &mut row, &mut side);
    for h in (k.0..to.0).rev() {
        layers::step_hour(&passed.day, Hour(h), passed.entries, &mut row, &mut side);
        let at = (to.0 - h - 1) as usize;
        slots::save_layer(passed.day.unit, at * PLACE, &row, &side, kept);
    }
    to
}
