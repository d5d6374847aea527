// The check of a list of hourly outputs: refused, or passing with its profit, or the first hour and rule that it breaks
// (model's specs/Answers say which). A refused reading is answered by its number. The record of an accepted one is
// tested again, 2 to 8 and 13, so that no reading has to be trusted; then 9, for a list that is not of T outputs. The
// work grows with the hours, and in the hours of a start-up or a shut-down with its trajectory. The list is only read.
#![tactic(auto)]

pub mod breach;

ghost use Rattle.std.specs.Prelude.{◌≡◌, Ok, length};
ghost use Rattle.day.specs.Rules.{breach};
ghost use Rattle.day.specs.Profit.{profit_of};
ghost use Rattle.model.specs.Answers.{judged, check_of};

use breach::first_breach;
use cases::admitted::Admitted;
use cases::{Reading, Verdict};
use profit::profit_of;
use quantities::Refusal;

// The verdict of a list, for a record within the limits.
fn judge(case: &Admitted, list: &[u16]) -> Verdict
    requires { length list.now ≡ case.now.case.hours }
    ensures { Ok result ≡ judged (profit_of case.now.case list.now) (breach case.now.case list.now) }
{
    match first_breach(case, list) {
        Some(breach) => Verdict::Breaks(breach),
        None => Verdict::Passes(profit_of(case, list)),
    }
}

// The verdict of a list on the case that was read.
#[tactic(auto, using(model::proofs::CheckLaws::checking))]
pub fn check(reading: Reading, list: &[u16]) -> Result<Verdict, Refusal>
    ensures { result ≡ check_of reading.outcome reading.case list.now }
{
    // the form that document 01 names
    let outcome = reading.outcome;
    let Ok(()) = outcome else {
        return Err(outcome.unwrap_err());
    };
    limits::tested(&reading.case)?;
    let admitted = Admitted { case: reading.case };
    if list.len() != admitted.case.hours {
        return Err(Refusal(9));
    }
    Ok(judge(&admitted, list))
}
