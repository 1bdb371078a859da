// The leaves: each is asked the floats that a record stores, and the floats it answers are held against the stored ones.
ghost use Rattle.std.specs.Prelude.{◌≡◌, [], ◌∷◌, ◌≤◌, length};
ghost use Rattle.lent_bytes.specs.Lent.{bytes_of};
ghost use Rattle.stored_answers.specs.Agree.{answer_agrees};
ghost use Rattle.spacetime.specs.Floats.{flat_vec, flat_quat};
ghost use Rattle.replay_calls.specs.Table.{answered_list};
ghost use Rattle.replay.specs.Leaves.{leaf_agrees};

use crate::leaves;
use geometry::quaternion::Quat;
use geometry::vector::Vec3;
use lent_bytes::lent;
use replay_calls::table;
use stored_answers::agree;
use stored_answers::stored::Record;

pub fn floats(r: Record, xs: &[f64]) -> bool
    requires { length xs.now ≤ 36 }
    ensures { result ≡ answer_agrees r.entry.s.now r.entry.at 0 answered_list (bytes_of xs.now ∷ []) }
{
    let mut out = [0u8; 288];
    let n = 8 * xs.len();
    lent::put_floats(xs, 0, &mut out);
    agree::agrees(r, 0, table::ANSWERED, &[&out[..n]])
}

pub fn quat(r: Record, q: Quat) -> bool
    ensures { result ≡ answer_agrees r.entry.s.now r.entry.at 0 answered_list (bytes_of (flat_quat q) ∷ []) }
{
    floats(r, &[q.w, q.i, q.j, q.k])
}

pub fn vec(r: Record, v: Vec3) -> bool
    ensures { result ≡ answer_agrees r.entry.s.now r.entry.at 0 answered_list (bytes_of (flat_vec v) ∷ []) }
{
    floats(r, &[v.x, v.y, v.z])
}

pub fn leaf(r: Record) -> bool
    ensures { result ≡ leaf_agrees r.entry.s.now r.entry.at }
{
    let call = r.call();
    let b = r.list(table::ASKED);
    match call {
        0..=21 => floats(r, &[leaves::standin(call, b)]),
        22..=28 => floats(r, &[leaves::loss(call, b)]),
        29..=31 => floats(r, &[leaves::measure(call, b)]),
        32..=36 => quat(r, leaves::quat(call, b)),
        37..=39 => vec(r, leaves::vec(call, b)),
        _ => floats(r, &leaves::gram(b)),
    }
}
