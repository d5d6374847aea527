// What the energy of a day costs by a table, told to the search: rates, and how many entries of the table it is shown.
ghost use Rattle.std.specs.Prelude.{◌≡◌, true, suc, ◌≤◌, ◌<◌, length, take, ◌+ℤ◌};
ghost use Rattle.curve.specs.Cost.{costs_length};
ghost use Rattle.machine.specs.Bounds.{most_energy};
ghost use Rattle.machine.specs.Moves.{cost_at};
ghost use Rattle.machine.specs.Fit.{Tabled};
ghost use Rattle.machine.specs.Cases.{Pays};
ghost use Rattle.curves.specs.Even.{Even};

use cases::MOST_VARIABLE;
use curve::{COSTS, MOST_ENERGY};
use machine::Rates;
use quantities::{HalfMills, Mills};

// Where the entries of the table lie on a line, the rates say what it says, and none is shown.
#[derive(Clone, Copy)]
pub(crate) struct Split {
    pub rates: Rates,
    pub shown: usize,
}

// How much an entry is below the next.
fn step_at(costs: &[i64], n: usize) -> HalfMills
    requires { (Tabled costs.now) × (length costs.now ≡ costs_length) × (n < most_energy) }
    ensures { cost_at costs.now (suc n) ≡ cost_at costs.now n +ℤ result.0 }
{
    money::difference(money::value_at(costs, n + 1), money::value_at(costs, n))
}

// Whether each entry is below the next by this much.
fn even(costs: &[i64], step: HalfMills) -> bool
    requires { (Tabled costs.now) × (length costs.now ≡ costs_length) }
    ensures { result ≡ true → Even costs.now step.0 most_energy }
{
    for n in 0..MOST_ENERGY {
        if step_at(costs, n) != step {
            return false;
        }
    }
    true
}

// The whole table is shown, and what an hour without energy costs is a rate.
pub(crate) fn by_table(costs: &[i64]) -> Split
    requires { (Tabled costs.now) × (length costs.now ≡ costs_length) }
    ensures { (result.shown ≡ costs_length) × (Pays result.rates costs.now (cost_at costs.now)) }
{
    let holds = money::value_at(costs, 0);
    let rates = Rates {
        variable: Mills(0),
        holds,
    };
    Split {
        rates,
        shown: COSTS,
    }
}

// No entry is shown where they lie on a line that a case's own costs could be, else all are.
pub(crate) fn split_of(costs: &[i64]) -> Split
    requires { (Tabled costs.now) × (length costs.now ≡ costs_length) }
    ensures { (result.shown ≤ costs_length)
        × (Pays result.rates (take result.shown costs.now) (cost_at costs.now)) }
{
    let step = step_at(costs, 0);
    if step < HalfMills(0) {
        return by_table(costs);
    }
    if HalfMills(MOST_VARIABLE as i64) < step {
        return by_table(costs);
    }
    if even(costs, step) {
        let holds = money::value_at(costs, 0);
        let variable = Mills(step.0 as i32);
        let rates = Rates { variable, holds };
        return Split { rates, shown: 0 };
    }
    by_table(costs)
}
