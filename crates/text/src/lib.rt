// The text that the program prints for an input, in lent bytes: model's specs/Printed say what `print` answers and
// leaves. An input longer than a case may be is refused by 1 in the text itself; a text longer than the lent bytes is
// refused by 10, and every lent byte stays.
#![tactic(auto)]

ghost use Rattle.std.specs.Prelude.{◌≡◌, ◌≤◌, length};
ghost use Rattle.cases.specs.Limits.{most_hours, short_work};
ghost use Rattle.cases.specs.Reads.{read_of};
ghost use Rattle.model.specs.Printed.{read_text, printed_of, printing_of};
ghost use Rattle.text.specs.Lines.{longest};
ghost use Rattle.lines.specs.Puts.{Puts};

use cases::{HOURS, INPUT, SHORT_WORK};
use quantities::Refusal;

// How long an input may be.
const MOST: usize = INPUT;

// Bytes at the most (specs/Lines): of the profit's line, of an hour's, and of a text, which has a line for each hour.
const PROFIT_LINE: usize = 28;

const HOUR_LINE: usize = 17;

pub const LONGEST: usize = PROFIT_LINE + HOUR_LINE * HOURS;

// Puts the best day of a file, found in as many lent numbers as short minimum times ask for, or its refusal.
fn put_best(file: &[u8], work: &mut [i64], outputs: &mut [u16], out: &mut [u8; LONGEST]) -> usize
    requires { (length work.old ≡ short_work) × (most_hours ≤ length outputs.old) }
    ensures puts { Puts out.old 0 (read_text (read_of file.now).outcome
        (read_of file.now).case) out.new result }
    ensures upper_bound { result ≤ longest }
{
    let reading = codec::read(file);
    let case = reading.case;
    match best::schedule(reading, work, outputs) {
        Ok(profit) => lines::put_day(out, profit, case, outputs),
        Err(refusal) => lines::put_refused(out, refusal.0),
    }
}

// Puts the text of an input.
fn put_text(input: &[u8], out: &mut [u8; LONGEST]) -> usize
    ensures puts { Puts out.old 0 (printed_of input.now) out.new result }
    ensures upper_bound { result ≤ longest }
{
    if MOST < input.len() {
        return lines::put_refused(out, 1);
    }
    let mut work = [0i64; SHORT_WORK];
    let mut outputs = [0u16; HOURS];
    put_best(input, &mut work, &mut outputs, out)
}

// Writes the text of an input to the front of the lent bytes and returns its length; the bytes past it stay. Where
// fewer are lent, 10, and every lent byte stays. No text is longer than LONGEST.
pub fn print(input: &[u8], text: &mut [u8]) -> Result<usize, Refusal>
    ensures value { result ≡ (printing_of input.now text.old).answer }
    ensures text_after { text.new ≡ (printing_of input.now text.old).lent }
    ensures input_len_bound { length (printed_of input.now) ≤ longest }
{
    let mut whole = [0u8; LONGEST];
    let n = put_text(input, &mut whole);
    if text.len() < n {
        return Err(Refusal(10));
    }
    lines::parts::put(text, 0, &whole[..n]);
    Ok(n)
}
