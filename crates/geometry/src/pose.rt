// A pose: where a frame stands and how it is turned.
#![tactic(auto, unfolding(crate::specs::Pose::origin_of))]

ghost use Rattle.std.specs.Prelude.{◌≡◌};
ghost use Rattle.geometry.specs.Pose.{origin_of};

use crate::quaternion::Quat;
use crate::vector::Vec3;
use crate::{quaternion, vector};

#[derive(Clone, Copy)]
pub struct Pose {
    pub position: Vec3,
    pub rotation: Quat,
}

pub fn origin() -> Pose
    ensures { result ≡ origin_of }
{
    Pose {
        position: vector::zero(),
        rotation: quaternion::identity(),
    }
}
