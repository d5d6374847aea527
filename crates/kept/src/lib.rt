// What is kept of the hours ahead while the plan goes forward: the rows of the lock that it is in, or the layers up to
// the next that has a slot. Either is made once for the hours that there are places for, and made again where the plan
// comes past them. `Holds` is a clause and no fact of `Held`, as it speaks of an hour, which moves on. The definitions
// are those of locks' specs/Held and specs/Locked. Each function is called by crates of this repository, which keep
// what it asks for.
#![tactic(auto)]

ghost use Rattle.std.specs.Prelude.{◌≡◌, suc, ◌≤◌, ◌<◌};
ghost use Rattle.machine.specs.Proper.{Proper};
ghost use Rattle.cells.specs.Ahead.{tariffs};
ghost use Rattle.cells.specs.Table.{lock_of};
ghost use Rattle.locks.specs.Held.{Holds, Free, Ready};

use locks::Held;
use machine::State;
use quantities::Hour;
use slots::passed::Passed;

// The rows of a lock that ends at hour b, from hour k on, unless they are there. `keep_layers` asks other things of
// what is there and makes another thing, so one function for both would be handed every line of the two.
pub fn keep_rows(passed: &Passed<'_>, k: Hour, b: Hour, held: &mut Held)
    requires k_lt_b { (k.0 < b.0) × (b.0 ≤ passed.now.day.unit.hours.0) }
    requires holds { Holds passed.now.day.unit (tariffs passed.now.day) k.0 held.old.end.0 held.old.to.0
        held.old.numbers }
    ensures { (held.new.end.0 ≡ b.0) × (k.0 < held.new.to.0)
        × (Holds passed.now.day.unit (tariffs passed.now.day) k.0 held.new.end.0 held.new.to.0 held.new.numbers) }
{
    if held.end == b {
        if k < held.to {
            return;
        }
    }
    locks::fill(passed, k, b, held);
}

// The layers from hour k on, unless they are there, hour k has a slot or the day is over.
pub fn keep_layers(passed: &Passed<'_>, k: Hour, held: &mut Held)
    requires k_le_hours { k.0 ≤ passed.now.day.unit.hours.0 }
    requires holds { Holds passed.now.day.unit (tariffs passed.now.day) k.0 held.old.end.0 held.old.to.0
        held.old.numbers }
    ensures { (Free passed.now.day.unit (tariffs passed.now.day) passed.now.stride.0 k.0 held.new.to.0 held.new.numbers)
        × (Holds passed.now.day.unit (tariffs passed.now.day) k.0 held.new.end.0 held.new.to.0 held.new.numbers) }
{
    if held.end == Hour(0) {
        if k < held.to {
            return;
        }
    }
    let slot = slots::slot_from(k, passed.stride);
    let base = slot.hour.min(passed.day.unit.hours);
    if base == k {
        return;
    }
    held.to = spans::fill(passed, k, base, &mut held.numbers);
    held.end = Hour(0);
}

// What the choice of hour k looks at in state s, unless it is there.
pub fn keep(passed: &Passed<'_>, k: Hour, s: State, held: &mut Held)
    requires k_lt_hours { (k.0 < passed.now.day.unit.hours.0) × (Proper passed.now.day.unit s) }
    requires holds { Holds passed.now.day.unit (tariffs passed.now.day) (suc k.0) held.old.end.0 held.old.to.0
        held.old.numbers }
    ensures { (Ready passed.now.day.unit (tariffs passed.now.day) passed.now.stride.0 k.0 (lock_of s) held.new.to.0
        held.new.numbers)
        × (Holds passed.now.day.unit (tariffs passed.now.day) (suc k.0) held.new.end.0 held.new.to.0 held.new.numbers) }
{
    let b = locks::end_of(passed.day.unit, k, s);
    let after = k.next();
    if after < b {
        return keep_rows(passed, after, b, held);
    }
    keep_layers(passed, after, held);
}
