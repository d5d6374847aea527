// The comparisons of constraints (1) to (6), (11) and (12), each for the constraints that differ in what is compared
// (specs/Compared). A listed output may be any 16-bit number, so megawatts are added up in more bits, where no sum of
// outputs and of counts of marks wraps.
ghost use Rattle.std.specs.Prelude.{◌≡◌, ◌+◌, ◌*◌, ◌≤◌, ◌<◌};
ghost use Rattle.quantities.specs.Widths.{words};
ghost use Rattle.broken.specs.Compared.{above_least, below_most, within_ramp, meets_low};

use hours::Numbers;
use hours::stages::Sequence;
use quantities::Output;

// Two counts of marks together.
pub fn both(a: u8, b: u8) -> u16
    ensures { result ≡ a + b }
{
    u16::from(a) + u16::from(b)
}

// An output in more bits.
fn wide(output: Output) -> u64
    ensures { (result ≡ output.0) × (result < words) }
{
    u64::from(output.0)
}

// An output, so many times.
fn times(output: Output, n: u8) -> u64
    ensures { (result ≡ output.0 * n) × (result ≤ words * 256) }
{
    u64::from(output.0) * u64::from(n)
}

// An output, as often as two counts say together.
fn times_both(output: Output, a: u8, b: u8) -> u64
    ensures { (result ≡ output.0 * (a + b)) × (result ≤ 2 * (words * 256)) }
{
    times(output, a) + times(output, b)
}

// (1) and (2): the least output, by the sequence that prescribes one.
pub fn above_least(low: Output, n: Numbers, s: Sequence) -> bool
    ensures { result ≡ above_least low.0 n s }
{
    let inside = times_both(low, n.shutdown.marks, n.startup.marks);
    times(low, n.marks.online) + wide(s.output) <= wide(n.output) + inside
}

// (3) and (4): the greatest output, by the sequence that prescribes one.
pub fn below_most(high: Output, n: Numbers, s: Sequence) -> bool
    ensures { result ≡ below_most high.0 n s }
{
    wide(n.output) + times(high, s.marks) <= wide(s.output) + times(high, n.marks.online)
}

// (5) and (6): the ramp from the lower output to the higher, waived in the hours of a sequence.
pub fn within_ramp(
    high: Output,
    ramp: Output,
    lower: Output,
    higher: Output,
    waived: u8,
    online: u8,
) -> bool
    ensures { result ≡ within_ramp high.0 ramp.0 lower.0 higher.0 waived online }
{
    let most = times(high, waived) + times(ramp, online);
    wide(higher) + times(ramp, waived) <= wide(lower) + most
}

// (11) and (12): a start-up and a shut-down meet at the minimum output, where PU ends and PD begins.
pub fn meets_low(low: Output, n: Numbers) -> bool
    ensures { result ≡ meets_low low.0 n }
{
    times_both(low, n.shutdown.marks, n.startup.marks) <= wide(n.output) + wide(low)
}
