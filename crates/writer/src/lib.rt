// Writes the bytes of a case in the newest form, field by field at their offsets (cases' specs/Layout). What each
// function leaves in the lent bytes: its own from an offset on, and every other as it was.
#![tactic(auto)]

mod numbers;

ghost use Rattle.std.specs.Prelude.{◌≡◌, [], ◌∷◌, ◌++◌, ◌+◌, ◌*◌, ◌≤◌, ◌<◌, length, get_or};
ghost use Rattle.std.proofs.lemmas.List.Edits.{sets};
ghost use Rattle.cases.specs.Limits.{most_stages};
ghost use Rattle.quantities.specs.Widths.{words};
ghost use Rattle.cases.specs.Forms.{newest, entry_length, pairs_length};
ghost use Rattle.cases.specs.Layout.{bytes, joined, no_output, unsigned, field_bytes, section_bytes};
ghost use Rattle.cases.specs.Layout.{pair_bytes, bytes_of};

use crate::numbers::{put_mills, put_word};
use cases::admitted::Admitted;
use cases::{
    Case, FORM, FORM_BYTES, HOUR_BYTES, PAIR_BYTES, SECTIONS, STAGE_BYTES, STAGES, UNIT_BYTES,
};
use quantities::{Mills, Output};

// Where the unit section begins, and where it ends.
const PAIRS_BYTES: usize = PAIR_BYTES * SECTIONS;

const FRONT_BYTES: usize = PAIRS_BYTES + UNIT_BYTES;

// Writes two bytes.
#[tactic(auto, using(cases::proofs::SetsLaws::bytes_written))]
fn put_bytes(out: &mut [u8], at: usize, a: u8, b: u8)
    requires { at + 2 ≤ length out.old }
    ensures { out.new ≡ sets out.old at (bytes 1 a ++ bytes 1 b) }
{
    out[at] = a;
    out[at + 1] = b;
}

// Writes two 16-bit numbers.
#[tactic(auto, using(cases::proofs::SetsLaws::sets_both))]
fn put_pair(out: &mut [u8], at: usize, a: u16, b: u16)
    requires { at + 4 ≤ length out.old }
    ensures { out.new ≡ sets out.old at (bytes 2 a ++ bytes 2 b) }
{
    put_word(out, at, a);
    put_word(out, at + 2, b);
}

// Writes two costs.
#[tactic(auto, using(cases::proofs::SetsLaws::sets_both))]
fn put_costs(out: &mut [u8], at: usize, a: Mills, b: Mills)
    requires { at + 8 ≤ length out.old }
    ensures { out.new
        ≡ sets out.old at (bytes 4 (unsigned a.0) ++ bytes 4 (unsigned b.0)) }
{
    put_mills(out, at, a);
    put_mills(out, at + 4, b);
}

// Writes pair i, the offset and the length of a section.
fn put_place(out: &mut [u8], i: usize, offset: usize, size: usize)
    requires i_in_bounds { 4 * i + 4 ≤ length out.old }
    requires offset_lt_words { (offset < words) × (size < words) }
    ensures { out.new ≡ sets out.old (4 * i) (bytes 2 offset ++ bytes 2 size) }
{
    put_pair(out, PAIR_BYTES * i, offset as u16, size as u16);
}

// Writes the five pairs of a record within the limits.
fn put_pairs(admitted: &Admitted, out: &mut [u8])
    requires { pairs_length newest.1 ≤ length out.old }
    ensures { out.new ≡ sets out.old 0 (pair_bytes admitted.now.case newest) }
{
    let case = &admitted.case;
    let rises = STAGE_BYTES * case.rises;
    let falls = STAGE_BYTES * case.falls;
    let hours = HOUR_BYTES * case.hours;
    let falls_at = FRONT_BYTES + rises;
    let hours_at = falls_at + falls;
    let form_at = hours_at + hours;
    put_place(out, 0, PAIRS_BYTES, UNIT_BYTES);
    put_place(out, 1, FRONT_BYTES, rises);
    put_place(out, 2, falls_at, falls);
    put_place(out, 3, hours_at, hours);
    put_place(out, 4, form_at, FORM_BYTES);
}

// Writes the unit section.
fn put_unit(case: &Case, out: &mut [u8])
    requires { pairs_length newest.1 + entry_length newest.1 0 ≤ length out.old }
    ensures { out.new
        ≡ sets out.old (pairs_length newest.1) (section_bytes case.now newest 0) }
{
    put_pair(out, PAIRS_BYTES, case.capacity.0, case.minimum.0);
    put_pair(out, PAIRS_BYTES + 4, case.rampup.0, case.rampdown.0);
    put_pair(out, PAIRS_BYTES + 8, case.minup.0, case.mindown.0);
    put_costs(out, PAIRS_BYTES + 12, case.variable, case.fixed);
    put_costs(out, PAIRS_BYTES + 20, case.startcost, case.stopcost);
    put_pair(out, PAIRS_BYTES + 28, case.initial.0, case.elapsed.0);
    put_bytes(out, PAIRS_BYTES + 32, case.upstage, case.downstage);
}

// Writes the first n outputs of a trajectory.
fn put_stages(out: &mut [u8], at: usize, outputs: &[Output; STAGES], n: usize)
    requires { (n ≤ most_stages) × (at + 2 * n ≤ length out.old) }
    ensures { out.new
        ≡ sets out.old at (joined (λ k. field_bytes (2 ∷ []) ((get_or outputs.now k no_output).0 ∷ [])) n) }
{
    for i in 0..n {
        put_word(out, at + STAGE_BYTES * i, outputs[i].0);
    }
}

// Writes an hour: its price and its order byte.
#[tactic(auto, using(cases::proofs::SetsLaws::hour_written))]
fn put_hour(out: &mut [u8], at: usize, price: Mills, order: u8)
    requires { at + 5 ≤ length out.old }
    ensures { out.new
        ≡ sets out.old at (field_bytes (4 ∷ 1 ∷ []) (unsigned price.0 ∷ order ∷ [])) }
{
    put_mills(out, at, price);
    out[at + 4] = order;
}

// Writes the hours of a record within the limits.
fn put_hours(admitted: &Admitted, out: &mut [u8], at: usize)
    requires { at + 5 * admitted.now.case.hours ≤ length out.old }
    ensures { out.new ≡ sets out.old at (section_bytes admitted.now.case newest 3) }
{
    let case = &admitted.case;
    for i in 0..case.hours {
        put_hour(out, at + HOUR_BYTES * i, case.prices[i], case.orders[i]);
    }
}

// The length of the file of a record within the limits.
pub fn file_length(admitted: &Admitted) -> usize
    ensures { result ≡ length (bytes_of admitted.now.case) }
{
    let case = &admitted.case;
    FRONT_BYTES
        + STAGE_BYTES * case.rises
        + STAGE_BYTES * case.falls
        + HOUR_BYTES * case.hours
        + FORM_BYTES
}

// Writes the file of a record within the limits.
pub fn put_case(admitted: &Admitted, out: &mut [u8])
    requires { length (bytes_of admitted.now.case) ≤ length out.old }
    ensures { out.new ≡ sets out.old 0 (bytes_of admitted.now.case) }
{
    let case = &admitted.case;
    let falls_at = FRONT_BYTES + STAGE_BYTES * case.rises;
    let hours_at = falls_at + STAGE_BYTES * case.falls;
    let form_at = hours_at + HOUR_BYTES * case.hours;
    put_pairs(admitted, out);
    put_unit(case, out);
    put_stages(out, FRONT_BYTES, &case.rise, case.rises);
    put_stages(out, falls_at, &case.fall, case.falls);
    put_hours(admitted, out, hours_at);
    put_word(out, form_at, FORM);
}
