// A record with the entries past its counts zero (cases' specs/Layout).
ghost use Rattle.std.specs.Prelude.{◌≡◌};
ghost use Rattle.cases.specs.Layout.{zeroed};

use cases::Case;
use cases::admitted::Admitted;
use quantities::{Mills, Output};

// The record, within the limits, with the entries past its counts zero.
#[inline(never)]
#[tactic(auto, unfolding(cases::specs::Layout::zeroed))]
pub(crate) fn zeroed(admitted: &Admitted) -> Case
    ensures { result ≡ zeroed admitted.now.case }
{
    let case = &admitted.case;
    let mut kept = *case;
    kept.rise = padded::front(&case.rise, case.rises, Output(0));
    kept.fall = padded::front(&case.fall, case.falls, Output(0));
    kept.prices = padded::front(&case.prices, case.hours, Mills(0));
    kept.orders = padded::front(&case.orders, case.hours, 0);
    kept
}
