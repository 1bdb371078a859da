// The tool at a chain's end.
ghost use Rattle.std.specs.Prelude.{◌≡◌, ◌+◌, ◌*◌, ◌≤◌, length};
ghost use Rattle.spacetime.specs.Tool.{tip_of};

use crate::{arm, floats};
use geometry::pose::Pose;
use geometry::quaternion;
use sheet::code::Kind;
use sheet::tool;

// The pose followed by chain c's tool as by a fixed link; without one it stays as it is.
pub fn tip(tools: &[f64], c: usize, p: Pose) -> Pose
    requires { 8 * c + 8 ≤ length tools.now }
    ensures { result ≡ tip_of tools.now c p }
{
    if !tool::has_tool(tools, c) {
        return p;
    }
    let d = floats::get_vec(tools, 8 * c + 1);
    let o = floats::get_quat(tools, 8 * c + 4);
    arm::link(Kind::Fixed, d, o, 0.0, quaternion::identity(), p)
}
