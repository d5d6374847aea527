// The C boundary (include/giqapsun.h): each call takes and gives structs by value, with no logic of its own. The
// answers' numbers and values are those of model's specs/Answers; specs/Boundary lays them out. An answer is a number
// beside its values, and a kind a number, since the C interface needs it.
#![tactic(auto)]

ghost use Rattle.std.specs.Prelude.{◌≡◌};
ghost use Rattle.cases.specs.Reads.{Accepted};
ghost use Rattle.cases.specs.Refusals.{work_length};
ghost use Rattle.cases.specs.Reads.{read_of, write_of};
ghost use Rattle.model.specs.Answers.{check_of, schedule_of};
ghost use Rattle.model.specs.Compared.{compared_of};
ghost use Rattle.model.specs.Calendar.{calendar_of};
ghost use Rattle.curve.specs.Cost.{supplied_of};
ghost use Rattle.giqapsun.specs.Boundary.{reading_out, written_out, verdict_out, plan_out, choice_out};
ghost use Rattle.giqapsun.specs.Boundary.{table_by, check_by, schedule_by};

use cases::{Case, Comparison, Reading, Verdict};
use curve::Curve;
use quantities::{HalfMills, Hour, Refusal};

// The number of a refusal, or 0, and the record: zeros beside a refusal.
#[repr(C)]
#[derive(Clone, Copy)]
pub struct GiqapsunReading {
    pub number: u32,
    pub case: Case,
}

// The number of a refusal, or 0, and how many bytes were written.
#[repr(C)]
#[derive(Clone, Copy)]
pub struct GiqapsunWritten {
    pub number: u32,
    pub length: usize,
}

// The number of a refusal, or 0; the hour and the rule of a breach, or 0 and 0; the profit of a list that passes.
#[repr(C)]
#[derive(Clone, Copy)]
pub struct GiqapsunVerdict {
    pub number: u32,
    pub hour: u32,
    pub rule: u32,
    pub profit: HalfMills,
}

// The number of a refusal, or 0, and the profit of the list that was found.
#[repr(C)]
#[derive(Clone, Copy)]
pub struct GiqapsunPlan {
    pub number: u32,
    pub profit: HalfMills,
}

// The number of a refusal, or 0; which list to offer, 1 or 2, or 0; and what it earns.
#[repr(C)]
#[derive(Clone, Copy)]
pub struct GiqapsunChoice {
    pub number: u32,
    pub which: u32,
    pub profit: HalfMills,
}

impl From<Reading> for GiqapsunReading {
    ghost from_gives = { λ reading out. out ≡ reading_out reading };

    fn from(reading: Reading) -> Self {
        GiqapsunReading {
            number: u32::from(limits::number(reading.outcome)),
            case: reading.case,
        }
    }
}

impl From<Result<usize, Refusal>> for GiqapsunWritten {
    ghost from_gives = { λ written out. out ≡ written_out written };

    fn from(written: Result<usize, Refusal>) -> Self {
        match written {
            Ok(length) => GiqapsunWritten { number: 0, length },
            Err(refusal) => GiqapsunWritten {
                number: u32::from(refusal.0),
                length: 0,
            },
        }
    }
}

impl From<Result<Verdict, Refusal>> for GiqapsunVerdict {
    ghost from_gives = { λ verdict out. out ≡ verdict_out verdict };

    fn from(verdict: Result<Verdict, Refusal>) -> Self {
        match verdict {
            Ok(Verdict::Passes(profit)) => GiqapsunVerdict {
                number: 0,
                hour: 0,
                rule: 0,
                profit,
            },
            Ok(Verdict::Breaks(breach)) => GiqapsunVerdict {
                number: 0,
                hour: u32::from(breach.hour.0),
                rule: u32::from(breach.rule),
                profit: HalfMills(0),
            },
            Err(refusal) => GiqapsunVerdict {
                number: u32::from(refusal.0),
                hour: 0,
                rule: 0,
                profit: HalfMills(0),
            },
        }
    }
}

impl From<Result<HalfMills, Refusal>> for GiqapsunPlan {
    ghost from_gives = { λ plan out. out ≡ plan_out plan };

    fn from(plan: Result<HalfMills, Refusal>) -> Self {
        match plan {
            Ok(profit) => GiqapsunPlan { number: 0, profit },
            Err(refusal) => GiqapsunPlan {
                number: u32::from(refusal.0),
                profit: HalfMills(0),
            },
        }
    }
}

impl From<Result<Comparison, Refusal>> for GiqapsunChoice {
    ghost from_gives = { λ comparison out. out ≡ choice_out comparison };

    fn from(comparison: Result<Comparison, Refusal>) -> Self {
        match comparison {
            Ok(Comparison::First(profit)) => GiqapsunChoice {
                number: 0,
                which: 1,
                profit,
            },
            Ok(Comparison::Second(profit)) => GiqapsunChoice {
                number: 0,
                which: 2,
                profit,
            },
            Ok(Comparison::Neither) => GiqapsunChoice {
                number: 0,
                which: 0,
                profit: HalfMills(0),
            },
            Err(refusal) => GiqapsunChoice {
                number: u32::from(refusal.0),
                which: 0,
                profit: HalfMills(0),
            },
        }
    }
}

// The record as an accepted reading: what is behind it tests the record itself.
fn as_read(case: Case) -> Reading
    ensures { result ≡ record { outcome = Accepted; case = case } }
{
    Reading {
        outcome: Ok(()),
        case,
    }
}

// Reads a case file.
#[unsafe(no_mangle)]
pub extern "C" fn giqapsun_read_4(file: &[u8]) -> GiqapsunReading
    ensures { result ≡ reading_out (read_of file.now) }
{
    GiqapsunReading::from(codec::read(file))
}

// Writes the file of a record to the front of the lent bytes; those past it, and all of them on a refusal, stay as
// they are.
#[unsafe(no_mangle)]
pub extern "C" fn giqapsun_write_4(case: Case, bytes: &mut [u8]) -> GiqapsunWritten
    ensures answer { result ≡ written_out (write_of case bytes.old).answer }
    ensures lent { bytes.new ≡ (write_of case bytes.old).lent }
{
    GiqapsunWritten::from(codec::write(case, bytes))
}

// The verdict of a list with a record.
#[unsafe(no_mangle)]
pub extern "C" fn giqapsun_check_4(case: Case, list: &[u16]) -> GiqapsunVerdict
    ensures { result ≡ verdict_out (check_of Accepted case list.now) }
{
    GiqapsunVerdict::from(rules::check(as_read(case), list))
}

// Which of two lists to offer with a record.
#[unsafe(no_mangle)]
pub extern "C" fn giqapsun_better_4(case: Case, first: &[u16], second: &[u16]) -> GiqapsunChoice
    ensures { result ≡ choice_out (compared_of Accepted case first.now second.now) }
{
    GiqapsunChoice::from(offers::compare(as_read(case), first, second))
}

// How many numbers a search of a record is to be lent.
#[unsafe(no_mangle)]
pub extern "C" fn giqapsun_work_4(case: Case) -> usize
    ensures { result ≡ work_length case }
{
    limits::work_of(case)
}

// The best list of a record, in the first outputs; the first working numbers are zeroed. Nothing is changed on 2 to 8,
// 13 and 10.
#[unsafe(no_mangle)]
pub extern "C" fn giqapsun_best_4(case: Case, work: &mut [i64], outputs: &mut [u16]) -> GiqapsunPlan
    ensures answer { result
        ≡ plan_out (schedule_of Accepted case work.old outputs.old).answer }
    ensures work { work.new
        ≡ (schedule_of Accepted case work.old outputs.old).work }
    ensures outputs { outputs.new
        ≡ (schedule_of Accepted case work.old outputs.old).outputs }
{
    GiqapsunPlan::from(best::schedule(as_read(case), work, outputs))
}

// The best list of a record on the day that a calendar orders: the on-line and the off-line windows, and the day's
// first hour and number of hours. Nothing is changed on 14, 15, 2 to 8, 13 and 10.
#[unsafe(no_mangle)]
pub extern "C" fn giqapsun_best_by_calendar_4(
    case: Case,
    on: &[u16],
    off: &[u16],
    first: Hour,
    hours: Hour,
    work: &mut [i64],
    outputs: &mut [u16],
) -> GiqapsunPlan
    ensures answer { result ≡ plan_out (calendar_of Accepted case on.now off.now first.0
        hours.0 work.old outputs.old).answer }
    ensures work { work.new
        ≡ (calendar_of Accepted case on.now off.now first.0 hours.0 work.old
        outputs.old).work }
    ensures outputs { outputs.new
        ≡ (calendar_of Accepted case on.now off.now first.0 hours.0 work.old
        outputs.old).outputs }
{
    GiqapsunPlan::from(calendar::schedule_by_calendar(
        as_read(case),
        on,
        off,
        first,
        hours,
        work,
        outputs,
    ))
}

// The costs of a curve, told by the number of its kind, to the front of the lent numbers: 0, or the number of a
// refusal, on which they stay as they are.
#[unsafe(no_mangle)]
pub extern "C" fn giqapsun_table_4(kind: u16, curve: Curve, table: &mut [i64]) -> u32
    ensures answer { result ≡ (table_by (supplied_of kind curve) table.old).answer }
    ensures table { table.new ≡ (table_by (supplied_of kind curve) table.old).table }
{
    let Some(known) = costs::kind_of(kind, curve) else {
        return 16;
    };
    u32::from(limits::number(costs::fill_table(known, table)))
}

// The verdict of a list with a record, by a curve. The table is filled unless the call is refused.
#[unsafe(no_mangle)]
pub extern "C" fn giqapsun_check_by_curve_4(
    case: Case,
    kind: u16,
    curve: Curve,
    list: &[u16],
    table: &mut [i64],
) -> GiqapsunVerdict
    ensures answer { result ≡ verdict_out (check_by (supplied_of kind curve) case list.now
        table.old).answer }
    ensures table { table.new ≡ (check_by (supplied_of kind curve) case list.now
        table.old).table }
{
    let Some(known) = costs::kind_of(kind, curve) else {
        return GiqapsunVerdict::from(Err(Refusal(16)));
    };
    GiqapsunVerdict::from(curves::check_by_curve(as_read(case), known, list, table))
}

// The best list of a record by a curve, in the first outputs; the table is filled and the first working numbers are
// zeroed. Nothing is changed on 16, 2 to 8, 13 and 10.
#[unsafe(no_mangle)]
pub extern "C" fn giqapsun_best_by_curve_4(
    case: Case,
    kind: u16,
    curve: Curve,
    table: &mut [i64],
    work: &mut [i64],
    outputs: &mut [u16],
) -> GiqapsunPlan
    ensures answer { result ≡ plan_out (schedule_by (supplied_of kind curve) case table.old
        work.old outputs.old).answer.answer }
    ensures table { table.new ≡ (schedule_by (supplied_of kind curve) case table.old
        work.old outputs.old).table }
    ensures work { work.new ≡ (schedule_by (supplied_of kind curve) case table.old
        work.old outputs.old).answer.work }
    ensures outputs { outputs.new ≡ (schedule_by (supplied_of kind curve) case table.old
        work.old outputs.old).answer.outputs }
{
    let Some(known) = costs::kind_of(kind, curve) else {
        return GiqapsunPlan::from(Err(Refusal(16)));
    };
    GiqapsunPlan::from(curves::schedule_by_curve(as_read(case), known, table, work, outputs))
}
