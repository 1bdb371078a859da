// Vectors of three floats.
#![tactic(auto, unfolding(crate::specs::Vector::zero_of, crate::specs::Vector::add_of, crate::specs::Vector::sub_of, crate::specs::Vector::negate_of, crate::specs::Vector::scale_of, crate::specs::Vector::over_of, crate::specs::Vector::dot_of, crate::specs::Vector::cross_of, crate::specs::Vector::norm_of))]

ghost use Rattle.std.specs.Prelude.{◌≡◌};
ghost use Rattle.geometry.specs.Vector.{zero_of, add_of, sub_of, negate_of, scale_of, over_of, dot_of, cross_of, norm_of};

#[derive(Clone, Copy)]
pub struct Vec3 {
    pub x: f64,
    pub y: f64,
    pub z: f64,
}

pub fn zero() -> Vec3
    ensures { result ≡ zero_of }
{
    Vec3 {
        x: 0.0,
        y: 0.0,
        z: 0.0,
    }
}

pub fn add(a: Vec3, b: Vec3) -> Vec3
    ensures { result ≡ add_of a b }
{
    Vec3 {
        x: a.x + b.x,
        y: a.y + b.y,
        z: a.z + b.z,
    }
}

pub fn sub(a: Vec3, b: Vec3) -> Vec3
    ensures { result ≡ sub_of a b }
{
    Vec3 {
        x: a.x - b.x,
        y: a.y - b.y,
        z: a.z - b.z,
    }
}

pub fn negate(v: Vec3) -> Vec3
    ensures { result ≡ negate_of v }
{
    Vec3 {
        x: -v.x,
        y: -v.y,
        z: -v.z,
    }
}

pub fn scale(v: Vec3, s: f64) -> Vec3
    ensures { result ≡ scale_of v s }
{
    Vec3 {
        x: v.x * s,
        y: v.y * s,
        z: v.z * s,
    }
}

pub fn over(v: Vec3, s: f64) -> Vec3
    ensures { result ≡ over_of v s }
{
    Vec3 {
        x: v.x / s,
        y: v.y / s,
        z: v.z / s,
    }
}

pub fn dot(a: Vec3, b: Vec3) -> f64
    ensures { result ≡ dot_of a b }
{
    a.x * b.x + a.y * b.y + a.z * b.z
}

pub fn cross(a: Vec3, b: Vec3) -> Vec3
    ensures { result ≡ cross_of a b }
{
    Vec3 {
        x: a.y * b.z - a.z * b.y,
        y: a.z * b.x - a.x * b.z,
        z: a.x * b.y - a.y * b.x,
    }
}

pub fn norm(v: Vec3) -> f64
    ensures { result ≡ norm_of v }
{
    root::sqrt(v.x * v.x + v.y * v.y + v.z * v.z)
}
