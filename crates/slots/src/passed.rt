// The backward pass of a day, done: its entries, and every so many hours the layer in a slot among the working numbers.
ghost use Rattle.std.specs.Prelude.{length};
ghost use Rattle.machine.specs.Moves.{day_of};
ghost use Rattle.machine.proofs.Props.{props};
ghost use Rattle.cells.specs.Table.{Entries};
ghost use Rattle.slots.specs.Saved.{Slotted, Saved};

use cells::ahead::DayAhead;
use machine::ENTRIES;
use quantities::Hour;

// `stride`: how many hours from one layer that is kept to the next; `width`: the numbers of a slot.
#[derive(Clone, Copy)]
pub struct Passed<'a> {
    pub day: DayAhead<'a>,
    pub stride: Hour,
    pub width: usize,
    pub entries: &'a [i64; ENTRIES],
    pub work: &'a [i64],
    ghost slotted: { Slotted day.unit stride.0 width (length work.now) } by { Prim.hlevel props },
    ghost entered: { Entries day.unit (day_of day.margins.now day.orders.now day.charges day.costs.now) 0
        entries.now } by { Prim.hlevel props },
    ghost saved: { Saved day.unit (day_of day.margins.now day.orders.now day.charges day.costs.now) stride.0 width 0
        work.now } by { Prim.hlevel props },
}
