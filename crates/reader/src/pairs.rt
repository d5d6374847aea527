// The pairs of a case file, offset and length, the form that its first offset and its form number name, and refusals 1,
// 2 and 12 of a file (cases' specs/Layout, Refusals). Offsets and lengths are 16 bits wide in the file and reckoned
// with as usize, so that no sum wraps.
ghost use Rattle.std.specs.Prelude.{◌≡◌, false, ◌+◌, ◌*◌, ◌-◌, ◌≤◌, ◌<◌, eqb, length};
ghost use Rattle.cases.specs.Limits.{longs};
ghost use Rattle.quantities.specs.Widths.{words};
ghost use Rattle.cases.specs.Symbols.{before, every};
ghost use Rattle.cases.specs.Layout.{offset_at, length_at, end_at, section_at, form_number_at, form_of};
ghost use Rattle.cases.specs.Refusals.{fits, refusal1, refusal2_file, refusal12};
ghost use Rattle.reader.specs.Tables.{table_of};

use crate::forms::{Form, entry_bytes, most_entries};
use crate::numbers::{front, word};
use cases::{FORM, FORM_TWO, OLD_SECTIONS, PAIR_BYTES, SECTIONS};

// The offset in pair i of a file.
#[tactic(auto, using(cases::proofs::PartedLaws::offset_at_word))]
pub(crate) fn offset_at(file: &[u8], i: usize) -> usize
    requires { 4 * i + 4 ≤ length file.now }
    ensures { (result ≡ offset_at file.now i) × (result < words) }
{
    word(file, PAIR_BYTES * i) as usize
}

// The length in pair i of a file.
#[tactic(auto, using(cases::proofs::PartedLaws::length_at_word))]
pub(crate) fn length_at(file: &[u8], i: usize) -> usize
    requires { 4 * i + 4 ≤ length file.now }
    ensures { (result ≡ length_at file.now i) × (result < words) }
{
    word(file, PAIR_BYTES * i + 2) as usize
}

// Where section i of a file ends; the sum does not wrap.
#[tactic(auto, using(cases::proofs::PartedLaws::end_at_sum))]
pub(crate) fn end_at(file: &[u8], i: usize) -> usize
    requires { 4 * i + 4 ≤ length file.now }
    ensures { result ≡ end_at file.now i }
{
    offset_at(file, i) + length_at(file, i)
}

// Section i of a file, from its own offset to its end.
#[tactic(auto, using(cases::proofs::PartedLaws::end_at_sum, cases::proofs::PartedLaws::section_at_part))]
pub(crate) fn section(file: &[u8], i: usize) -> &[u8]
    requires { (4 * i + 4 ≤ length file.now) × (end_at file.now i ≤ length file.now) }
    ensures { result.now ≡ section_at file.now i }
{
    let from = offset_at(file, i);
    let to = end_at(file, i);
    &file[from..to]
}

// How many sections a file has, by its first offset.
#[tactic(auto, using(cases::proofs::FormsLaws::form_of_old, cases::proofs::FormsLaws::length_numbered))]
fn sections_of(file: &[u8]) -> usize
    requires { 4 ≤ length file.now }
    ensures { result ≡ length (form_of file.now) }
{
    if offset_at(file, 0) == PAIR_BYTES * OLD_SECTIONS {
        return OLD_SECTIONS;
    }
    SECTIONS
}

// Whether each of n sections but the first begins where the one before ends.
fn linked(file: &[u8], n: usize) -> bool
    requires { (1 ≤ n) × (4 * n ≤ length file.now) }
    ensures { result
        ≡ every (λ i. eqb (offset_at file.now i) (end_at file.now (before i))) (n - 1) }
{
    let mut so = true;
    for i in 0..n - 1 {
        so &= offset_at(file, i + 1) == end_at(file, i);
    }
    so
}

// The file is too short for the pairs of its form, or its sections do not follow one another from there to its end.
pub fn refusal1(file: &[u8]) -> bool
    ensures { result ≡ refusal1 file.now }
{
    if file.len() < PAIR_BYTES * OLD_SECTIONS {
        return true;
    }
    let sections = sections_of(file);
    if file.len() < PAIR_BYTES * sections {
        return true;
    }
    let n = file.len();
    let rest = linked(file, sections) & (end_at(file, sections - 1) == n);
    !((offset_at(file, 0) == PAIR_BYTES * sections) & rest)
}

// The number in the form section of a file with five sections.
fn form_number(file: &[u8]) -> u16
    requires file_value { refusal1 file.now ≡ false }
    requires file_len { length (form_of file.now) ≡ 5 }
    ensures { result ≡ form_number_at file.now }
{
    front(section(file, 4))
}

// The form of a file, by its first offset and its form number.
pub fn form_of(file: &[u8]) -> Form
    requires { refusal1 file.now ≡ false }
    ensures { table_of result ≡ form_of file.now }
{
    if sections_of(file) == OLD_SECTIONS {
        return Form::Old;
    }
    if form_number(file) == FORM_TWO {
        return Form::Two;
    }
    Form::Three
}

// Whether a section of so many bytes is 1 to `most` entries of `width` bytes; the entries of a longer one are not
// counted.
#[tactic(auto, using(cases::proofs::RefusalsLaws::fits_counted))]
fn fits(bytes: usize, width: usize, most: usize) -> bool
    requires { (0 < width) × (width * most < longs) }
    ensures { result ≡ fits width most bytes }
{
    let n = count::up_to(bytes, width, most);
    (width * n == bytes) & (1 <= n)
}

// A section length that does not fit, of a file that has room for its pairs.
pub fn refusal2_file(file: &[u8]) -> bool
    requires { refusal1 file.now ≡ false }
    ensures { result ≡ refusal2_file file.now }
{
    let form = form_of(file);
    let mut so = true;
    for i in 0..form.sections() {
        so &= fits(length_at(file, i), entry_bytes(form, i), most_entries(i));
    }
    !so
}

// A form number that no form has.
pub fn refusal12(file: &[u8]) -> bool
    requires { refusal1 file.now ≡ false }
    ensures { result ≡ refusal12 file.now }
{
    if sections_of(file) == OLD_SECTIONS {
        return false;
    }
    let number = form_number(file);
    (number != FORM) & (number != FORM_TWO)
}
