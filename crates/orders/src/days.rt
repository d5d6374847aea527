// A day of the year that has been tested once: a record has room for its hours.
ghost use Rattle.std.specs.Prelude.{◌≤◌};
ghost use Rattle.cases.specs.Limits.{most_hours};

use quantities::Hour;

// The hours of a day, from an hour of the year on.
#[derive(Clone, Copy)]
pub(crate) struct Day {
    pub(crate) first: Hour,
    pub(crate) hours: Hour,
    ghost room: { hours.0 ≤ most_hours },
}
