// What lies ahead of a unit: an hour, and a day. Each is within its limits, and travels as one.
ghost use Rattle.std.specs.Prelude.{◌≡◌, ◌+◌, ◌<◌, ◌≤◌, nat_abs};
ghost use Rattle.machine.specs.Fit.{Fit, Fair};
ghost use Rattle.machine.specs.Moves.{tariff_of, terms_at, head};
ghost use Rattle.machine.specs.Bounds.{most_earned, most_energy, missing_size};
ghost use Rattle.cells.specs.Brought.{brought_by};
ghost use Rattle.cells.specs.Table.{Day};
ghost use Rattle.machine.proofs.Props.{props};

use machine::{Charges, Terms, Unit};
use quantities::{HalfMills, Hour, Output};

// The unit, and what an hour pays and asks, with the table of what its energy costs.
#[derive(Clone, Copy)]
pub struct HourAhead<'a> {
    pub unit: Unit,
    pub terms: Terms,
    pub costs: &'a [i64],
    ghost fit: { Fit unit } by { Prim.hlevel props },
    ghost fair: { Fair (tariff_of terms costs.now) } by { Prim.hlevel props },
}

impl HourAhead<'_> {
    // What an on-line hour earns at n half-megawatt-hours, before the table's entry for them is taken off.
    pub fn head_of(&self, n: usize) -> HalfMills
        requires { n ≤ most_energy }
        ensures { (result.0 ≡ head (tariff_of self.now.terms self.now.costs.now) n) × (nat_abs result.0 ≤ most_earned) }
    {
        let sold = money::multiple(self.terms.margin, n);
        money::sum(
            money::difference(sold, self.terms.charges.holds),
            crate::cost_at(self.costs, 0),
        )
    }

    // What the hour brings from output q to p, with v the worth of the state after it.
    pub fn offered(&self, q: Output, p: Output, v: HalfMills) -> HalfMills
        requires p_bound { (q.0 + p.0 ≤ most_energy) × (nat_abs v.0 ≤ missing_size) }
        ensures { result.0 ≡ brought_by (tariff_of self.now.terms self.now.costs.now) q.0 p.0 v.0 }
    {
        if crate::allowed(self.terms, p) {
            money::more(crate::earned(self.terms, self.costs, q, p), v)
        } else {
            money::none()
        }
    }
}

// The unit, and the margins and orders of the hours of a day, with its charges and the table.
#[derive(Clone, Copy)]
pub struct DayAhead<'a> {
    pub unit: Unit,
    pub charges: Charges,
    pub margins: &'a [i64],
    pub orders: &'a [u8],
    pub costs: &'a [i64],
    ghost fit: { Fit unit } by { Prim.hlevel props },
    ghost day: { Day unit margins.now orders.now charges costs.now } by { Prim.hlevel props },
}

impl<'a> DayAhead<'a> {
    // Hour k of the day.
    pub fn at(&self, k: Hour) -> HourAhead<'a>
        requires { k.0 < self.now.unit.hours.0 }
        ensures unit { result.unit ≡ self.now.unit }
        ensures terms { result.terms ≡ terms_at self.now.margins.now self.now.orders.now self.now.charges k.0 }
        ensures costs { result.costs.now ≡ self.now.costs.now }
    {
        HourAhead {
            unit: self.unit,
            terms: Terms {
                margin: money::value_at(self.margins, k.0 as usize),
                order: self.orders[k.0 as usize],
                charges: self.charges,
            },
            costs: self.costs,
        }
    }
}
