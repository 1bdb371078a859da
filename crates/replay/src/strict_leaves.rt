// The leaves that goals without tolerance stand on, as the others.
ghost use Rattle.std.specs.Prelude.{◌≡◌};
ghost use Rattle.replay.specs.StrictLeaves.{strict_leaf_agrees};

use crate::leaf_cases::{floats, quat, vec};
use crate::leaves::{quat_at, vec_at};
use lent_bytes::bytes::float_at;
use objective_master::strict::{pos_goals_loss, quat_goals_loss};
use replay_calls::table;
use stored_answers::stored::Record;
use utils_rust::acos::acos;
use utils_rust::transformations::{
    angle_between_quaternion, from_quaternion, quaternion_disp, quaternion_log,
};

pub fn leaf(r: Record) -> bool
    ensures { result ≡ strict_leaf_agrees r.entry.s.now r.entry.at }
{
    let call = r.call();
    let b = r.list(table::ASKED);
    match call {
        44 => floats(r, &[acos(float_at(b, 0))]),
        45 => quat(r, from_quaternion(quat_at(b, 0))),
        46 => vec(r, quaternion_log(quat_at(b, 0))),
        47 => vec(r, quaternion_disp(quat_at(b, 0), quat_at(b, 4))),
        48 => floats(r, &[angle_between_quaternion(quat_at(b, 0), quat_at(b, 4))]),
        49 => floats(r, &[pos_goals_loss(vec_at(b, 0), vec_at(b, 3))]),
        _ => floats(r, &[quat_goals_loss(quat_at(b, 0), quat_at(b, 4))]),
    }
}
