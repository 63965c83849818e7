//! How what a builder holds winds: a law that is the contract of a function that does nothing.

ghost use Rattle.polygon_overlay.specs.GivenLaws.{HeldWindsAsGiven};

use plane_base::laws::thinning_keeps_windings;

/// What is held winds round each rational point as the contours that were given, thinned or with all their points.
pub fn held_winds_as_given()
    ensures { HeldWindsAsGiven }
{
    thinning_keeps_windings();
}
