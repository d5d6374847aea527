// An hour of a list, with its numbers.
ghost use Rattle.hours.specs.Numbered.{Numbered};
ghost use Rattle.std.proofs.Props.{props};

use crate::Numbers;
use crate::counted::Counts;
use quantities::Hour;

// The hour, the numbers that the rules compare at it, and the counts that they are read off.
#[derive(Clone, Copy)]
pub struct NumberedHour<'a> {
    pub counts: Counts<'a>,
    pub hour: Hour,
    pub numbers: Numbers,
    ghost numbered: { Numbered counts.case.now.case counts.list.now hour.0 numbers } by { Prim.hlevel props },
}
