// Reads a case file, writes one, and admits a case record: cases' specs/Reads say what each answers and leaves.
// Nothing outside the published limits is accepted: a file is refused by 1, 2, 12, 3 to 8 and 13, a record by 2 to 8
// and 13, and a writing with too few bytes lent by 10. A refusal leaves the lent bytes as they are.
#![tactic(auto)]

mod entries;

ghost use Rattle.std.specs.Prelude.{◌≡◌, Err};
ghost use Rattle.cases.specs.Layout.{blank};
ghost use Rattle.cases.specs.Reads.{read_of, admit_of, write_of};

use cases::admitted::Admitted;
use cases::{Case, HOURS, Reading, STAGES};
use quantities::{Hour, Mills, Output, Refusal};

// The record of zeros.
#[tactic(auto, using(cases::proofs::CutLaws::blank_zeros))]
fn blank() -> Case
    ensures { result ≡ blank }
{
    Case {
        capacity: Output(0),
        minimum: Output(0),
        rampup: Output(0),
        rampdown: Output(0),
        minup: Hour(0),
        mindown: Hour(0),
        variable: Mills(0),
        fixed: Mills(0),
        startcost: Mills(0),
        stopcost: Mills(0),
        initial: Output(0),
        elapsed: Hour(0),
        upstage: 0,
        downstage: 0,
        rise: [Output(0); STAGES],
        fall: [Output(0); STAGES],
        prices: [Mills(0); HOURS],
        orders: [0u8; HOURS],
        rises: 0,
        falls: 0,
        hours: 0,
    }
}

// A refusal: the record of zeros beside it.
fn refused(refusal: Refusal) -> Reading
    ensures { result ≡ record { outcome = Err refusal; case = blank } }
{
    Reading {
        outcome: Err(refusal),
        case: blank(),
    }
}

// The case of a file, with the entries past its counts zero, or the first refusal of 1, 2, 12, 3 to 8 and 13 that
// applies.
#[tactic(auto, using(crate::proofs::ReadsLaws::reading))]
pub fn read(file: &[u8]) -> Reading
    ensures { result ≡ read_of file.now }
{
    if reader::pairs::refusal1(file) {
        return refused(Refusal(1));
    }
    if reader::pairs::refusal2_file(file) {
        return refused(Refusal(2));
    }
    if reader::pairs::refusal12(file) {
        return refused(Refusal(12));
    }
    let case = reader::sections::case_of(file);
    match limits::tested(&case) {
        Ok(()) => Reading {
            outcome: Ok(()),
            case,
        },
        Err(refusal) => refused(refusal),
    }
}

// A record, with the entries past its counts zero, or the first refusal of 2 to 8 and 13 that applies.
#[tactic(auto, using(crate::proofs::ReadsLaws::admitting))]
pub fn admit(case: Case) -> Reading
    ensures { result ≡ admit_of case }
{
    match limits::tested(&case) {
        Ok(()) => Reading {
            outcome: Ok(()),
            case: entries::zeroed(&Admitted { case }),
        },
        Err(refusal) => refused(refusal),
    }
}

// Writes the file of a record to the front of the lent bytes and returns its length; the bytes past it stay. On a
// refusal, the first of 2 to 8, 13 and 10 that applies, every lent byte stays.
#[tactic(auto, using(crate::proofs::ReadsLaws::writing))]
pub fn write(case: Case, bytes: &mut [u8]) -> Result<usize, Refusal>
    ensures value { result ≡ (write_of case bytes.old).answer }
    ensures bytes_after { bytes.new ≡ (write_of case bytes.old).lent }
{
    limits::tested(&case)?;
    let admitted = Admitted { case };
    let n = writer::file_length(&admitted);
    if bytes.len() < n {
        return Err(Refusal(10));
    }
    writer::put_case(&admitted, bytes);
    Ok(n)
}
