// robot.rs: the manipulability over all chains.
ghost use Rattle.std.specs.Prelude.{◌≡◌, length};
ghost use Rattle.manipulability.specs.View.{seen_by, HasLinks};
ghost use Rattle.manipulability.specs.Jacobian.{manipulability_of, Counted};

use crate::jacobian;
use crate::view::Poses;

// The sum of the chains' manipulabilities.
pub fn get_manipulability_immutable(counts: &[u16], codes: &[u16], poses: Poses<'_>) -> f64
    requires counted { Counted counts.now codes.now }
    requires view { HasLinks poses (length codes.now) }
    ensures { result ≡ manipulability_of (seen_by poses.entry) counts.now codes.now }
{
    let mut out = 0.0;
    let mut l: usize = 0;
    for n in counts {
        let r = l + *n as usize;
        out = out + jacobian::get_manipulability_immutable(codes, poses, l, r);
        l = r;
    }
    out
}
