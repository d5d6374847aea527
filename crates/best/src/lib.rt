// The best day of a case in lent memory: its list in the first outputs, its profit, and the working numbers zeroed; 11
// exactly where no list keeps every rule. What is answered and left for every input is model's specs/Answers,
// `schedule_of`; the best list is `best_day` of model's specs/Best. A case outside the limits is refused by 2 to 8 or
// 13, memory that is too short by 10, and nothing is changed then. Beside it, the search of a case by whatever its
// energy costs (specs/Searched), which other crates of this repository call with what it asks for.
#![tactic(auto)]

mod wipe;

ghost use Rattle.std.specs.Prelude.{false, ◌≡◌, ℕ, ◌≤◌, length, drop, ℤ};
ghost use Rattle.cases.specs.Limits.{short_work, long_work};
ghost use Rattle.cases.specs.Refusals.{work_length};
ghost use Rattle.day.specs.Profit.{profit_of};
ghost use Rattle.model.specs.Best.{best_day};
ghost use Rattle.model.specs.Answers.{planned, schedule_of};
ghost use Rattle.machine.specs.Cases.{Pays, stops_early};
ghost use Rattle.machine.specs.Proper.{Proper};
ghost use Rattle.cells.specs.Ahead.{tariffs};
ghost use Rattle.cells.specs.Table.{Found};
ghost use Rattle.best.specs.Searched.{searched_by};

use cases::admitted::Admitted;
use cases::{HOURS, Reading};
use cells::ahead::DayAhead;
use machine::{Rates, State};
use quantities::{HalfMills, Refusal};

// The search in the first n working numbers; those past them stay as they are.
fn search_first(
    day: &DayAhead<'_>,
    s: State,
    n: usize,
    work: &mut [i64],
    outputs: &mut [u16],
) -> HalfMills
    requires proper { (Proper day.now.unit s) × (day.now.unit.hours.0 ≤ length outputs.old) }
    requires short_work_le_n { (short_work ≤ n) × (n ≤ long_work) × (n ≤ length work.old) }
    ensures found { Found day.now.unit (tariffs day.now) s outputs.old outputs.new result.0 }
    ensures work_unchanged { drop n work.new ≡ drop n work.old }
{
    search::search(day, s, &mut work[..n], outputs)
}

// The best list from the opening of a case within the limits whose opening stop, if there is one, comes late enough, in
// memory that is long enough: the n working numbers are zeroed, and the list, if there is one, fills the first outputs.
fn searched(
    case: &Admitted,
    rates: Rates,
    costs: &[i64],
    n: usize,
    work: &mut [i64],
    outputs: &mut [u16],
) -> Result<HalfMills, Refusal>
    requires late { stops_early case.now.case ≡ false }
    requires n_value { (n ≡ work_length case.now.case) × (n ≤ length work.old)
        × (case.now.case.hours ≤ length outputs.old) }
    requires by_index { (cost : ℕ → ℤ) × Pays rates costs.now cost }
    ensures answer { (cost : ℕ → ℤ) → Pays rates costs.now cost
        → result ≡ (searched_by cost case.now.case work.old outputs.old).answer }
    ensures work { (cost : ℕ → ℤ) → Pays rates costs.now cost
        → work.new ≡ (searched_by cost case.now.case work.old outputs.old).work }
    ensures outputs { (cost : ℕ → ℤ) → Pays rates costs.now cost
        → outputs.new ≡ (searched_by cost case.now.case work.old outputs.old).outputs }
{
    let unit = unit::unit_of(case);
    let opening = unit::opening_of(case);
    let case = case.case;
    let charges = unit::charges_of(case, rates.holds);
    let mut margins = [0i64; HOURS];
    unit::margins(case.prices, rates.variable, case.hours, &mut margins);
    let orders = unit::orders(case.orders, case.hours);
    let day = DayAhead {
        unit,
        charges,
        margins: &margins,
        orders: &orders,
        costs,
    };
    let worth = search_first(&day, opening, n, work, outputs);
    wipe::clear(work, n);
    if money::absent(worth) {
        return Err(Refusal(11));
    }
    Ok(worth)
}

// The best list of a case within the limits by what its energy costs, in memory that is long enough. A day that opens
// in a shut-down whose stop comes too early has none.
pub fn find(
    case: &Admitted,
    rates: Rates,
    costs: &[i64],
    n: usize,
    work: &mut [i64],
    outputs: &mut [u16],
) -> Result<HalfMills, Refusal>
    requires n_value { (n ≡ work_length case.now.case) × (n ≤ length work.old)
        × (case.now.case.hours ≤ length outputs.old) }
    requires by_index { (cost : ℕ → ℤ) × Pays rates costs.now cost }
    ensures answer { (cost : ℕ → ℤ) → Pays rates costs.now cost
        → result ≡ (searched_by cost case.now.case work.old outputs.old).answer }
    ensures work { (cost : ℕ → ℤ) → Pays rates costs.now cost
        → work.new ≡ (searched_by cost case.now.case work.old outputs.old).work }
    ensures outputs { (cost : ℕ → ℤ) → Pays rates costs.now cost
        → outputs.new ≡ (searched_by cost case.now.case work.old outputs.old).outputs }
{
    if unit::stops_early(case) {
        wipe::clear(work, n);
        return Err(Refusal(11));
    }
    searched(case, rates, costs, n, work, outputs)
}

// The best list of a case within the limits by its own costs, in memory that is long enough: there is no table.
fn find_plain(
    case: &Admitted,
    n: usize,
    work: &mut [i64],
    outputs: &mut [u16],
) -> Result<HalfMills, Refusal>
    requires n_value { (n ≡ work_length case.now.case) × (n ≤ length work.old)
        × (case.now.case.hours ≤ length outputs.old) }
    ensures answer { result ≡ (planned case.now.case (profit_of case.now.case) work.old outputs.old
        (best_day case.now.case)).answer }
    ensures work { work.new ≡ (planned case.now.case (profit_of case.now.case) work.old outputs.old
        (best_day case.now.case)).work }
    ensures outputs { outputs.new ≡ (planned case.now.case (profit_of case.now.case) work.old outputs.old
        (best_day case.now.case)).outputs }
{
    let none: [i64; 0] = [];
    find(case, unit::rates_of(case.case), &none, n, work, outputs)
}

// The best list of the case of a reading. A refused reading is returned as it is, and the record of an accepted one is
// tested again. On 2 to 8, 13 and 10 nothing is changed.
#[tactic(auto, using(model::proofs::ScheduleLaws::scheduling))]
pub fn schedule(
    reading: Reading,
    work: &mut [i64],
    outputs: &mut [u16],
) -> Result<HalfMills, Refusal>
    ensures answer { result ≡ (schedule_of reading.outcome reading.case work.old
        outputs.old).answer }
    ensures work { work.new
        ≡ (schedule_of reading.outcome reading.case work.old outputs.old).work }
    ensures outputs { outputs.new
        ≡ (schedule_of reading.outcome reading.case work.old outputs.old).outputs }
{
    // the form that document 01 names
    let outcome = reading.outcome;
    let Ok(()) = outcome else {
        return Err(outcome.unwrap_err());
    };
    limits::tested(&reading.case)?;
    let admitted = Admitted { case: reading.case };
    let n = limits::work_of(admitted.case);
    if work.len() < n {
        return Err(Refusal(10));
    }
    if outputs.len() < admitted.case.hours {
        return Err(Refusal(10));
    }
    find_plain(&admitted, n, work, outputs)
}
