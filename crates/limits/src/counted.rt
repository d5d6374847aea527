// A record with counts within their limits: its arrays have as many entries as the counts say.
ghost use Rattle.std.specs.Prelude.{false, ◌≡◌};
ghost use Rattle.cases.specs.Refusals.{refusal2};

use cases::Case;

// A record that 2 does not refuse.
#[derive(Clone, Copy)]
pub(crate) struct Counted<'a> {
    pub(crate) case: &'a Case,
    ghost counts: { refusal2 case.now ≡ false },
}
