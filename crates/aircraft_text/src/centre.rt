//! The centre of gravity at a corner of an envelope.

ghost use Rattle.std.specs.Prelude.{◌≡◌, ◌<◌, ◌*◌, pos, ◌*ℤ◌, IfSome};
ghost use Rattle.mass_units.specs.PercentMac.{moment_behind_lemac};
ghost use Rattle.mass_units.specs.Rounding.{IsRounded};
ghost use Rattle.aircraft_text.specs.Centre.{centre_at};

use envelope::Corner;
use mass_units::{Chord, mac_hundredths};

/// Where the centre of gravity lies at the corner, in hundredths of a percent of the mean aerodynamic chord, a half away
/// from zero. None at no mass, which has no centre of gravity.
pub fn centre_at(chord: &Chord, corner: &Corner) -> Option<i128>
    requires { 0 < chord.now.mac_mm }
    ensures value { result ≡ centre_at chord.now corner.now }
    ensures rounded { IfSome result (IsRounded
        (pos 100 *ℤ moment_behind_lemac corner.now.index corner.now.mass chord.now) (corner.now.mass.0 * chord.now.mac_mm)) }
{
    if corner.mass.0 == 0 {
        return None;
    }
    Some(mac_hundredths(corner.index, corner.mass, chord))
}
