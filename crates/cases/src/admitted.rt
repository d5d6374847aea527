// A case within the limits: what has been tested once is not tested again.
ghost use Rattle.std.specs.Prelude.{◌≡◌};
ghost use Rattle.cases.specs.Refusals.{refusal_of};

use crate::Case;

// A case that no refusal applies to.
#[derive(Clone, Copy)]
pub struct Admitted {
    pub case: Case,
    ghost within: { refusal_of case ≡ 0 },
}
