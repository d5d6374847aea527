// A list with its starts and its stops counted: the numbers of each hour are read off them.
ghost use Rattle.hours.specs.Counted.{Counted};
ghost use Rattle.std.proofs.Props.{props};

use crate::counts::COUNTS;
use cases::admitted::Admitted;

// The case, the list, and the running counts of the list's starts and stops.
#[derive(Clone, Copy)]
pub struct Counts<'a> {
    pub case: &'a Admitted,
    pub list: &'a [u16],
    pub starts: &'a [u8; COUNTS],
    pub stops: &'a [u8; COUNTS],
    ghost counted: { Counted case.now.case list.now starts.now stops.now } by { Prim.hlevel props },
}
