// The check and the search by a boiler maker's cost curve (request F-7; model's specs/Curves): the curve's table is
// filled in lent numbers, and profit is reckoned by it. 16 refuses a curve before any case is looked at; a table of
// less than 801 numbers is refused by 10. A refusal other than 11 leaves the table as it was.
#![tactic(auto)]

mod list;
mod split;

ghost use Rattle.std.specs.Prelude.{◌≡◌, Ok, Err, IfOk, IfErr, ◌≤◌, length};
ghost use Rattle.cases.specs.Reads.{Accepted};
ghost use Rattle.curve.specs.declared.Kind.{Kind};
ghost use Rattle.curve.specs.Cost.{Usable, table_of};
ghost use Rattle.day.specs.Rules.{breach};
ghost use Rattle.model.specs.Best.{best_by};
ghost use Rattle.cases.specs.Refusals.{work_length};
ghost use Rattle.model.specs.Answers.{judged, planned};
ghost use Rattle.model.specs.Curves.{earned_by, check_by_curve_of, schedule_by_curve_of};
ghost use Rattle.curves.specs.Entered.{entered_of};

use cases::admitted::Admitted;
use cases::{Reading, Verdict};
use curve::{COSTS, Curve, Kind};
use quantities::{HalfMills, Refusal};

// Accepted, or the first refusal: 16 of a curve before any case, then that of the reading, then that of its record.
fn entered(curve: Curve, reading: Reading) -> Result<Admitted, Refusal>
    ensures ok { IfOk result (λ a. (a.case ≡ reading.case) × (entered_of curve reading.outcome reading.case ≡ Accepted)) }
    ensures err { IfErr result (λ r. entered_of curve reading.outcome reading.case ≡ Err r) }
{
    if !costs::accepts(curve) {
        return Err(Refusal(16));
    }
    // the form that document 01 names
    let outcome = reading.outcome;
    let Ok(()) = outcome else {
        return Err(outcome.unwrap_err());
    };
    limits::tested(&reading.case)?;
    Ok(Admitted { case: reading.case })
}

// The verdict of a list by a filled table, for a record within the limits.
fn judge(case: &Admitted, costs: &[i64], list: &[u16]) -> Verdict
    requires list_len { length list.now ≡ case.now.case.hours }
    requires usable { (k : Kind) × Usable k × (costs.now ≡ table_of k) }
    ensures { (k : Kind) → Usable k → costs.now ≡ table_of k
        → Ok result ≡ judged (earned_by k case.now.case list.now) (breach case.now.case list.now) }
{
    match rules::breach::first_breach(case, list) {
        Some(breach) => Verdict::Breaks(breach),
        None => Verdict::Passes(list::earned(case, split::by_table(costs).rates, costs, list)),
    }
}

// The best list by a filled table, for a record within the limits, in memory that is long enough.
fn find(
    case: &Admitted,
    costs: &[i64],
    n: usize,
    work: &mut [i64],
    outputs: &mut [u16],
) -> Result<HalfMills, Refusal>
    requires n_value { (n ≡ work_length case.now.case) × (n ≤ length work.old)
        × (case.now.case.hours ≤ length outputs.old) }
    requires usable { (k : Kind) × Usable k × (costs.now ≡ table_of k) }
    ensures answer { (k : Kind) → Usable k → costs.now ≡ table_of k
        → result ≡ (planned case.now.case (earned_by k case.now.case) work.old outputs.old
        (best_by (earned_by k case.now.case) case.now.case)).answer }
    ensures work { (k : Kind) → Usable k → costs.now ≡ table_of k
        → work.new ≡ (planned case.now.case (earned_by k case.now.case) work.old outputs.old
        (best_by (earned_by k case.now.case) case.now.case)).work }
    ensures outputs { (k : Kind) → Usable k → costs.now ≡ table_of k
        → outputs.new ≡ (planned case.now.case (earned_by k case.now.case) work.old outputs.old
        (best_by (earned_by k case.now.case) case.now.case)).outputs }
{
    let split = split::split_of(costs);
    let shown = split.shown;
    best::find(case, split.rates, &costs[..shown], n, work, outputs)
}

// The verdict of a list on the case that was read, by a curve: 16 before any case, then the refusals of the check, 9
// among them, then 10 for a table that is too short. The list is only read; on a refusal the table stays.
pub fn check_by_curve(
    reading: Reading,
    kind: Kind,
    list: &[u16],
    table: &mut [i64],
) -> Result<Verdict, Refusal>
    ensures answer { result ≡ (check_by_curve_of kind reading.outcome reading.case list.now
        table.old).answer }
    ensures table { table.new ≡ (check_by_curve_of kind reading.outcome reading.case
        list.now table.old).table }
{
    let curve = costs::record_of(kind);
    let admitted = entered(curve, reading)?;
    if list.len() != admitted.case.hours {
        return Err(Refusal(9));
    }
    if table.len() < COSTS {
        return Err(Refusal(10));
    }
    costs::fill(curve, table);
    Ok(judge(&admitted, &table[..COSTS], list))
}

// The best list of the case of a reading, by a curve: 16 before any case, then the refusals of the search, 10 for a
// table that is too short among them. On every number but 0 and 11 nothing is changed; on those the table is filled.
pub fn schedule_by_curve(
    reading: Reading,
    kind: Kind,
    table: &mut [i64],
    work: &mut [i64],
    outputs: &mut [u16],
) -> Result<HalfMills, Refusal>
    ensures answer { result ≡ (schedule_by_curve_of kind reading.outcome reading.case table.old
        work.old outputs.old).answer.answer }
    ensures table { table.new ≡ (schedule_by_curve_of kind reading.outcome reading.case
        table.old work.old outputs.old).table }
    ensures work { work.new ≡ (schedule_by_curve_of kind reading.outcome reading.case
        table.old work.old outputs.old).answer.work }
    ensures outputs { outputs.new ≡ (schedule_by_curve_of kind reading.outcome reading.case
        table.old work.old outputs.old).answer.outputs }
{
    let curve = costs::record_of(kind);
    let admitted = entered(curve, reading)?;
    let n = limits::work_of(admitted.case);
    if table.len() < COSTS {
        return Err(Refusal(10));
    }
    if work.len() < n {
        return Err(Refusal(10));
    }
    if outputs.len() < admitted.case.hours {
        return Err(Refusal(10));
    }
    costs::fill(curve, table);
    find(&admitted, &table[..COSTS], n, work, outputs)
}
