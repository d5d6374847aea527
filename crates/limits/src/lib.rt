// The refusals of a record, 2 to 8 and 13: one test for each number, and the first that applies; how many numbers its
// search works in (cases' specs/Refusals); and the number of an outcome (cases' specs/Reads).
#![tactic(auto)]

mod counted;

ghost use Rattle.std.specs.Prelude.{true, false, cond, ◌≡◌, ◌≢◌, IfOk, IfErr, suc, ◌≤◌, ◌<◌, leb, eqb, pos, neg_ℤ};
ghost use Rattle.std.specs.List.{list_all};
ghost use Rattle.cases.specs.Limits.{most_stages, most_price, most_order};
ghost use Rattle.cases.specs.Symbols.{every, stage};
ghost use Rattle.cases.specs.Refusals.{within, amounts, refusal2, refusal3, refusal4, refusal5, refusal6, refusal7};
ghost use Rattle.cases.specs.Refusals.{refusal8, refusal13, climbs, descends, opens_free, opens_up, opens_down};
ghost use Rattle.cases.specs.Refusals.{work_length, refusal_of};
ghost use Rattle.cases.specs.Reads.{outcome_number};
ghost use Rattle.limits.specs.Steps.{stepped};

use crate::counted::Counted;
use cases::{
    Case, HOURS, LONG_WORK, MOST_CHARGE, MOST_ELAPSED, MOST_ORDER, MOST_OUTPUT, MOST_PRICE,
    MOST_TIME, MOST_VARIABLE, SHORT_TIME, SHORT_WORK, STAGES,
};
use quantities::{Mills, Output, Refusal};

// Whether a count is from `least` to `most`. One function for each type: over any type the clause cannot say `within`.
fn in_range(n: usize, least: usize, most: usize) -> bool
    ensures { result ≡ within least most n }
{
    (least..=most).contains(&n)
}

// The same of a number of 16 bits.
fn between(x: u16, least: u16, most: u16) -> bool
    ensures { result ≡ within least most x }
{
    (least..=most).contains(&x)
}

// The same of amounts.
fn amounts(x: Mills, least: Mills, most: Mills) -> bool
    ensures { result ≡ amounts least.0 most.0 x.0 }
{
    (least..=most).contains(&x)
}

// A count.
#[tactic(auto, unfolding(cases::specs::Refusals::refusal2))]
fn refusal2(case: &Case) -> bool
    ensures { result ≡ refusal2 case.now }
{
    let rises = in_range(case.rises, 1, STAGES);
    let falls = in_range(case.falls, 1, STAGES);
    let hours = in_range(case.hours, 1, HOURS);
    !(rises & (falls & hours))
}

// Minimum output and capacity.
#[tactic(auto, unfolding(cases::specs::Refusals::refusal3))]
fn refusal3(case: &Case) -> bool
    ensures { result ≡ refusal3 case.now }
{
    !(between(case.minimum.0, 1, case.capacity.0) & (case.capacity.0 <= MOST_OUTPUT))
}

// Ramps and minimum times.
#[tactic(auto, unfolding(cases::specs::Refusals::refusal4))]
fn refusal4(case: &Case) -> bool
    ensures { result ≡ refusal4 case.now }
{
    let up = between(case.rampup.0, 1, MOST_OUTPUT);
    let down = between(case.rampdown.0, 1, MOST_OUTPUT);
    let times = between(case.minup.0, 1, MOST_TIME) & between(case.mindown.0, 1, MOST_TIME);
    !(up & (down & times))
}

// Costs.
#[tactic(auto, unfolding(cases::specs::Refusals::refusal5))]
fn refusal5(case: &Case) -> bool
    ensures { result ≡ refusal5 case.now }
{
    let energy = amounts(case.variable, Mills(0), Mills(MOST_VARIABLE));
    let hour = amounts(case.fixed, Mills(0), Mills(MOST_CHARGE));
    let start = amounts(case.startcost, Mills(0), Mills(MOST_CHARGE));
    let stop = amounts(case.stopcost, Mills(0), Mills(MOST_CHARGE));
    !(energy & (hour & (start & stop)))
}

// One test where `up` is true, and else the other; a function, so that the loop below keeps which it was.
fn way(up: bool, rising: bool, falling: bool) -> bool
    ensures { result ≡ cond up rising falling }
{
    if up { rising } else { falling }
}

// Whether each of the first outputs is below the next, or above it, over `steps` steps.
fn strict(outputs: &[Output; STAGES], steps: usize, up: bool) -> bool
    requires { steps < most_stages }
    ensures { result ≡ every (λ i. stepped up (stage outputs.now i) (stage outputs.now (suc i))) steps }
{
    let mut so = true;
    for i in 0..steps {
        let a = outputs[i].0;
        let b = outputs[i + 1].0;
        so &= way(up, a < b, b < a);
    }
    so
}

// The start-up trajectory, of a count that 2 does not refuse, rises strictly from 1 or more to the minimum output.
#[tactic(auto, unfolding(cases::specs::Refusals::climbs))]
fn climbs(counted: &Counted<'_>) -> bool
    ensures { result ≡ climbs counted.now.case.now }
{
    let case = counted.case;
    let steps = case.rises - 1;
    let first = case.rise[0].0;
    let last = case.rise[steps].0;
    (1 <= first) & (strict(&case.rise, steps, true) & (last == case.minimum.0))
}

// The shut-down trajectory, of a count that 2 does not refuse, falls strictly from the minimum output to 1 or more.
#[tactic(auto, unfolding(cases::specs::Refusals::descends))]
fn descends(counted: &Counted<'_>) -> bool
    ensures { result ≡ descends counted.now.case.now }
{
    let case = counted.case;
    let steps = case.falls - 1;
    let first = case.fall[0].0;
    let last = case.fall[steps].0;
    (first == case.minimum.0) & (strict(&case.fall, steps, false) & (1 <= last))
}

// The trajectories.
#[tactic(auto, unfolding(cases::specs::Refusals::refusal6))]
fn refusal6(counted: &Counted<'_>) -> bool
    ensures { result ≡ refusal6 counted.now.case.now }
{
    !(climbs(counted) & descends(counted))
}

// Whether p(0) is the output at a stage of a trajectory, counted from 1.
fn opens_at(initial: Output, outputs: &[Output; STAGES], i: usize) -> bool
    requires { (1 ≤ i) × (i ≤ most_stages) }
    ensures { result ≡ eqb initial.0 (stage outputs.now i) }
{
    initial.0 == outputs[i - 1].0
}

// The day opens in no sequence, for counts that 2 does not refuse.
#[tactic(auto, unfolding(cases::specs::Refusals::opens_free))]
fn opens_free(counted: &Counted<'_>) -> bool
    ensures { result ≡ opens_free counted.now.case.now }
{
    let case = counted.case;
    let output = case.initial.0;
    let running = between(output, case.minimum.0, case.capacity.0);
    let risen = case.rises <= usize::from(case.elapsed.0);
    (case.upstage == 0) & ((case.downstage == 0) & ((output == 0) | (running & risen)))
}

// It opens in a start-up, of a count that 2 does not refuse.
#[tactic(auto, unfolding(cases::specs::Refusals::opens_up))]
fn opens_up(counted: &Counted<'_>) -> bool
    ensures { result ≡ opens_up counted.now.case.now }
{
    let case = counted.case;
    let stage = usize::from(case.upstage);
    if !in_range(stage, 1, case.rises - 1) {
        return false;
    }
    let output = opens_at(case.initial, &case.rise, stage);
    let hours = usize::from(case.elapsed.0) == stage;
    (case.downstage == 0) & (output & hours)
}

// It opens in a shut-down, of a count that 2 does not refuse.
#[tactic(auto, unfolding(cases::specs::Refusals::opens_down))]
fn opens_down(counted: &Counted<'_>) -> bool
    ensures { result ≡ opens_down counted.now.case.now }
{
    let case = counted.case;
    let stage = usize::from(case.downstage);
    if !in_range(stage, 2, case.falls) {
        return false;
    }
    let output = opens_at(case.initial, &case.fall, stage);
    let hours = case.rises + stage - 1 <= usize::from(case.elapsed.0);
    (case.upstage == 0) & (output & hours)
}

// h, and the opening: in no sequence, in a start-up or in a shut-down.
#[tactic(auto, unfolding(cases::specs::Refusals::refusal7))]
fn refusal7(counted: &Counted<'_>) -> bool
    ensures { result ≡ refusal7 counted.now.case.now }
{
    let held = between(counted.case.elapsed.0, 1, MOST_ELAPSED);
    !(held & (opens_free(counted) | (opens_up(counted) | opens_down(counted))))
}

// Whether each order byte is 0, 1 or 2.
fn ordered(orders: &[u8]) -> bool
    ensures { result ≡ list_all (λ order. leb order most_order) orders.now }
{
    let mut so = true;
    for order in orders {
        so &= *order <= MOST_ORDER;
    }
    so
}

// The order bytes of the day.
#[tactic(auto, unfolding(cases::specs::Refusals::refusal8))]
fn refusal8(counted: &Counted<'_>) -> bool
    ensures { result ≡ refusal8 counted.now.case.now }
{
    let case = counted.case;
    let orders = &case.orders[..case.hours];
    !ordered(orders)
}

// Whether each price is from the least to the most.
fn bounded(prices: &[Mills]) -> bool
    ensures { result ≡ list_all (λ price. amounts (neg_ℤ (pos most_price)) (pos most_price) price.0) prices.now }
{
    let mut so = true;
    for price in prices {
        so &= amounts(*price, Mills(-MOST_PRICE), Mills(MOST_PRICE));
    }
    so
}

// The prices of the day.
#[tactic(auto, unfolding(cases::specs::Refusals::refusal13))]
fn refusal13(counted: &Counted<'_>) -> bool
    ensures { result ≡ refusal13 counted.now.case.now }
{
    let case = counted.case;
    let prices = &case.prices[..case.hours];
    !bounded(prices)
}

// How many numbers a search of a record works in.
pub fn work_of(case: Case) -> usize
    ensures { result ≡ work_length case }
{
    if SHORT_TIME < case.minup.0 {
        return LONG_WORK;
    }
    if SHORT_TIME < case.mindown.0 {
        return LONG_WORK;
    }
    SHORT_WORK
}

// The refusal of a number where its test applies.
fn refuse(applies: bool, number: u8) -> Result<(), Refusal>
    ensures ok { IfOk result (λ _. applies ≡ false) }
    ensures err { IfErr result (λ r. (applies ≡ true) × (r.0 ≡ number)) }
{
    if applies {
        Err(Refusal(number))
    } else {
        Ok(())
    }
}

// The first refusal of a record; a record that has none is a case within the limits.
#[tactic(auto, using(crate::proofs::FirstLaws::refusing))]
pub fn tested(case: &Case) -> Result<(), Refusal>
    ensures ok { IfOk result (λ _. refusal_of case.now ≡ 0) }
    ensures err { IfErr result (λ r. (r.0 ≡ refusal_of case.now) × (refusal_of case.now ≢ 0)) }
{
    refuse(refusal2(case), 2)?;
    let counted = Counted { case };
    refuse(refusal3(case), 3)?;
    refuse(refusal4(case), 4)?;
    refuse(refusal5(case), 5)?;
    refuse(refusal6(&counted), 6)?;
    refuse(refusal7(&counted), 7)?;
    refuse(refusal8(&counted), 8)?;
    refuse(refusal13(&counted), 13)?;
    Ok(())
}

// The number of a refusal; 0 where there is none, as the C interface tells it.
pub fn number(outcome: Result<(), Refusal>) -> u8
    ensures { result ≡ outcome_number outcome }
{
    match outcome {
        Ok(()) => 0,
        Err(refusal) => refusal.0,
    }
}
