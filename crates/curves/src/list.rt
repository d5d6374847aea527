// What a list earns by what its energy costs, exact to the half-mill (day's specs/Profit): what each hour earns from
// one output to the next, as the search reckons it.
ghost use Rattle.std.specs.Prelude.{◌≡◌, ℕ, ◌<◌, T, ℤ};
ghost use Rattle.day.specs.Rules.{keeps};
ghost use Rattle.day.specs.Profit.{profit_by};
ghost use Rattle.machine.specs.Cases.{Pays};
ghost use Rattle.curves.specs.Alike.{Alike};

use cases::admitted::Admitted;
use machine::{Rates, Terms};
use quantities::{HalfMills, Output};

// What the hour after hour k pays and charges, whatever its order. Its price stands at place k.
fn terms_at(case: &Admitted, rates: Rates, k: usize) -> Terms
    requires { k < case.now.case.hours }
    ensures { Alike case.now.case rates k result }
{
    let margin = money::margin(case.case.prices[k], rates.variable);
    let charges = unit::charges_of(case.case, rates.holds);
    Terms {
        margin,
        order: 0,
        charges,
    }
}

// A list that keeps the rules, for a case within the limits.
pub(crate) fn earned(case: &Admitted, rates: Rates, costs: &[i64], list: &[u16]) -> HalfMills
    requires keeps { T (keeps case.now.case list.now) }
    requires by_index { (cost : ℕ → ℤ) × Pays rates costs.now cost }
    ensures { (cost : ℕ → ℤ) → Pays rates costs.now cost
        → result.0 ≡ profit_by cost case.now.case list.now }
{
    let mut total = HalfMills(0);
    let mut was = case.case.initial;
    for k in 0..case.case.hours {
        let hour = terms_at(case, rates, k);
        let is = Output(list[k]);
        total = money::sum(total, cells::earned(hour, costs, was, is));
        was = is;
    }
    total
}
