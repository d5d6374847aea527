// The wrapped numbers, each with one unit: megawatts, hours, mills (thousandths of a dollar) and half-mills never stand
// in for one another. Sums of outputs and of hours ask for room in 16 bits; differences stop at 0.
#![tactic(auto)]

ghost use Rattle.std.specs.Prelude.{◌≡◌, ◌+◌, ◌-◌, ◌<◌};
ghost use Rattle.quantities.specs.Widths.{words};

// Megawatts: an output at the end of an hour, or the most that it may change in an hour.
#[repr(C)]
#[derive(Clone, Copy, PartialEq, Eq, PartialOrd, Ord)]
pub struct Output(pub u16);

impl Output {
    // This output and as much more.
    pub fn plus(self, by: Output) -> Output
        requires { self.0 + by.0 < words }
        ensures { result.0 ≡ self.0 + by.0 }
    {
        Output(self.0 + by.0)
    }
}

// Hours: the index of an hour of the day, from 0, or a count of hours.
#[repr(C)]
#[derive(Clone, Copy, PartialEq, Eq, PartialOrd, Ord)]
pub struct Hour(pub u16);

impl Hour {
    // An hour later.
    pub fn next(self) -> Hour
        requires { self.0 + 1 < words }
        ensures { result.0 ≡ self.0 + 1 }
    {
        Hour(self.0 + 1)
    }

    // This many hours less another, or 0: a name for the number's own, which many places call.
    pub fn less(self, by: Hour) -> Hour
        ensures { result.0 ≡ self.0 - by.0 }
    {
        Hour(self.0.saturating_sub(by.0))
    }
}

// Mills: money per megawatt-hour, per hour, per start or per stop.
#[repr(C)]
#[derive(Clone, Copy, PartialEq, Eq, PartialOrd, Ord)]
pub struct Mills(pub i32);

// The number of a refusal, as the papers count them. A caller's reading may hold any number.
#[derive(Clone, Copy, PartialEq, Eq)]
pub struct Refusal(pub u8);

// Half-mills: what a list earns.
#[repr(C)]
#[derive(Clone, Copy, PartialEq, Eq, PartialOrd, Ord)]
pub struct HalfMills(pub i64);
