//! What is left of a leg: a law is the contract of a function that does nothing.
ghost use Rattle.mirror_calls.specs.Leg.{EndLaw};

use crate::Leg;

/// When calls of a leg have ended, each image of its disk may be left by some of the first of their changes, whether they
/// did their work or failed.
pub fn legs_are_left_by_their_calls<L: Leg>()
    ensures { EndLaw L.stands_for L.may_be_left L.moments }
{
    L::legs_are_left_as_told();
}
