// A kind as the record that its coefficients travel in (specs/Cost).
ghost use Rattle.std.specs.Prelude.{◌≡◌};
ghost use Rattle.curve.specs.Cost.{record_of};

use crate::{Curve, Kind};

// Unused coefficients are 0.
impl From<Kind> for Curve {
    ghost from_gives = { λ kind curve. curve ≡ record_of kind };

    fn from(kind: Kind) -> Curve {
        match kind {
            Kind::Flat(a) => Curve { a, b: 0.0, c: 0.0 },
            Kind::Straight(a, b) => Curve { a, b, c: 0.0 },
            Kind::Curved(a, b, c) => Curve { a, b, c },
        }
    }
}
