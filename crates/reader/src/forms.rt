// The forms of a case file by cases' table of widths (specs/Tables, cases' specs/Forms).
ghost use Rattle.std.specs.Prelude.{◌≡◌, ◌<◌, length, get_or};
ghost use Rattle.cases.specs.Forms.{most_entries, entry_length};
ghost use Rattle.reader.specs.Tables.{table_of};

use cases::{
    FORM_BYTES, HOUR_BYTES, HOURS, OLD_HOUR_BYTES, OLD_SECTIONS, OLD_UNIT_BYTES, SECTIONS,
    STAGE_BYTES, STAGES, UNIT_BYTES,
};

// The old form, form 2 and form 3.
#[derive(Clone, Copy)]
pub enum Form {
    Old,
    Two,
    Three,
}

impl Form {
    // How many sections a file has.
    pub(crate) fn sections(self) -> usize
        ensures { result ≡ length (table_of self) }
    {
        match self {
            Form::Old => OLD_SECTIONS,
            Form::Two | Form::Three => SECTIONS,
        }
    }

    // The bytes of the unit.
    pub(crate) fn unit(self) -> usize
        ensures { result ≡ entry_length (table_of self) 0 }
    {
        match self {
            Form::Old | Form::Two => OLD_UNIT_BYTES,
            Form::Three => UNIT_BYTES,
        }
    }

    // The bytes of an entry of the hours.
    pub(crate) fn hour(self) -> usize
        ensures { result ≡ entry_length (table_of self) 3 }
    {
        match self {
            Form::Old => OLD_HOUR_BYTES,
            Form::Two | Form::Three => HOUR_BYTES,
        }
    }
}

// The bytes of an entry of section i.
pub(crate) fn entry_bytes(form: Form, i: usize) -> usize
    requires { i < length (table_of form) }
    ensures { result ≡ entry_length (table_of form) i }
{
    match i {
        0 => form.unit(),
        1 | 2 => STAGE_BYTES,
        3 => form.hour(),
        _ => FORM_BYTES,
    }
}

// Entries of section i, at the most.
pub(crate) fn most_entries(i: usize) -> usize
    requires { i < 5 }
    ensures { result ≡ get_or most_entries i 0 }
{
    match i {
        1 | 2 => STAGES,
        3 => HOURS,
        _ => 1,
    }
}
