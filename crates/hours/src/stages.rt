// What a trajectory prescribes in an hour (day's specs/Constraints).
ghost use Rattle.std.specs.Prelude.{◌≡◌, ℕ, ◌*◌, ◌≤◌, ◌<◌};
ghost use Rattle.hours.specs.Staged.{Staged};
ghost use Rattle.hours.specs.Counted.{last_count, Running};
ghost use Rattle.hours.specs.Numbered.{sequence_at};

use crate::counts::{COUNTS, between};
use cases::STAGES;
use quantities::{Hour, Output};

// Of an hour: the starts or stops whose start-up or shut-down it lies in, and the output that these prescribe.
#[derive(Clone, Copy)]
pub struct Sequence {
    pub marks: u8,
    pub output: Output,
}

// An output where its hour is marked, else 0.
fn marked(output: Output, mark: u8) -> Output
    requires { mark ≤ 1 }
    ensures { (result.0 ≡ output.0 * mark) × (result.0 ≤ output.0) }
{
    if mark == 0 { Output(0) } else { output }
}

// The sequence of a trajectory of n outputs and of marks, at the n hours up to hour k.
pub fn sequence_at(stages: [Output; STAGES], n: usize, counts: &[u8; COUNTS], k: Hour) -> Sequence
    requires staged { Staged stages n }
    requires k_lt_last_count { k.0 < last_count }
    requires by_index { (f : ℕ → ℕ) × Running f last_count counts.now }
    ensures { (f : ℕ → ℕ) → Running f last_count counts.now → result ≡ sequence_at f stages n k.0 }
{
    let mut hour = k.next();
    let marks = between(counts, hour.less(Hour(n as u16)), hour);
    let mut output = Output(0);
    if marks == 0 {
        return Sequence { marks, output };
    }
    for i in 0..n {
        hour = hour.less(Hour(1));
        let mark = between(counts, hour, hour.next());
        output = output.plus(marked(stages[i], mark));
    }
    Sequence { marks, output }
}
