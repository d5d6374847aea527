// A list of windows of the year, two numbers for each: its first hour, and how many hours it has.
ghost use Rattle.std.specs.Prelude.{◌&&◌, ◌≡◌, ◌+◌, ◌≤◌, leb, length, replicate, is_some, IfSome};
ghost use Rattle.cases.specs.Limits.{most_hours, year_hours};
ghost use Rattle.model.specs.Calendar.{windows_from};
ghost use Rattle.orders.specs.Marked.{marked, overlaid};

use crate::days::Day;
use cases::{HOURS, YEAR_HOURS};
use quantities::Hour;

// Hours of the year, from a first one on.
#[derive(Clone, Copy)]
pub(crate) struct Window {
    pub(crate) first: Hour,
    pub(crate) hours: Hour,
}

impl Window {
    // Whether it ends within the year.
    pub(crate) fn in_year(self) -> bool
        ensures { result ≡ leb (self.first.0 + self.hours.0) year_hours }
    {
        u32::from(self.first.0) + u32::from(self.hours.0) <= u32::from(YEAR_HOURS)
    }

    // Whether it begins at hour `from` or later, is not empty and ends within the year.
    fn stands(self, from: Hour) -> bool
        ensures { result ≡ (leb from.0 self.first.0
            && (leb 1 self.hours.0 && leb (self.first.0 + self.hours.0) year_hours)) }
    {
        (from <= self.first) & ((Hour(1) <= self.hours) & self.in_year())
    }

    // The hour after its last.
    fn end(self) -> Hour
        requires { self.first.0 + self.hours.0 ≤ year_hours }
        ensures { result.0 ≡ self.first.0 + self.hours.0 }
    {
        Hour(self.first.0 + self.hours.0)
    }

    // Marks the hours of a day that it holds.
    fn mark(self, day: Day, order: u8, marks: &mut [u8; HOURS])
        requires { (length marks.old ≡ most_hours) × (self.first.0 + self.hours.0 ≤ year_hours) }
        ensures { marks.new
            ≡ marked day.first.0 day.hours.0 order self.first.0 self.hours.0 marks.old }
    {
        let begin = self.first.less(day.first).min(day.hours);
        let end = self.end().less(day.first).min(day.hours);
        marks[usize::from(begin.0)..usize::from(end.0)].fill(order);
    }
}

// The marks of the hours of a day that the windows of a list hold; none where the windows are not whole, in order and
// within the year. The list is gone over once, two numbers at a time, and what is left at its end is looked at.
pub(crate) fn survey(list: &[u16], day: Day, order: u8) -> Option<[u8; HOURS]>
    ensures stand { is_some result ≡ windows_from 0 list.now }
    ensures marks { IfSome result (λ marks. marks
        ≡ overlaid day.first.0 day.hours.0 order list.now (replicate most_hours 0)) }
{
    let mut marks = [0u8; HOURS];
    let mut from = Hour(0);
    let mut rest = list;
    while let [first, n, more @ ..] = rest {
        let window = Window {
            first: Hour(*first),
            hours: Hour(*n),
        };
        if !window.stands(from) {
            return None;
        }
        window.mark(day, order, &mut marks);
        from = window.end();
        rest = more;
    }
    rest.is_empty().then_some(marks)
}
