// The distance of two segments.
#![tactic(auto, unfolding(crate::specs::Segment::inner_of, crate::specs::Segment::ended_of, crate::specs::Segment::closest_of, crate::specs::Segment::point_of, crate::specs::Segment::distance_of))]

ghost use Rattle.std.specs.Prelude.{◌≡◌};
ghost use Rattle.geometry.specs.Segment.{inner_of, ended_of, closest_of, point_of, distance_of};

use crate::vector;
use crate::vector::Vec3;
use standins::cut;

// How far along the first and the second segment the nearest points lie, in shares of their lengths.
#[derive(Clone, Copy)]
struct Parameters {
    s: f64,
    t: f64,
}

// The products of the segments' directions d1 and d2 and of r, the way from the second start to the first.
#[derive(Clone, Copy)]
struct Products {
    // d1·d1, d1·d2, d1·r, d2·d2, d2·r
    a: f64,
    b: f64,
    c: f64,
    e: f64,
    f: f64,
}

impl Products {
    // s for two segments that have a length.
    fn inner(self) -> f64
        ensures { result ≡ inner_of self.a self.b self.c self.e self.f }
    {
        let Products { a, b, c, e, f } = self;
        let d = a * e - b * b;
        if d == 0.0 {
            return 0.0;
        }
        cut::cut((b * f - c * e) / d)
    }

    // A t beyond its segment moves to the end, and s with it.
    fn ended(self, s: f64, t: f64) -> Parameters
        ensures { result ≡ ended_of self.a self.b self.c s t }
    {
        let Products { a, b, c, .. } = self;
        if t < 0.0 {
            return Parameters {
                s: cut::cut(-c / a),
                t: 0.0,
            };
        }
        if t > 1.0 {
            return Parameters {
                s: cut::cut((b - c) / a),
                t: 1.0,
            };
        }
        Parameters { s, t }
    }

    fn closest(self) -> Parameters
        ensures { result ≡ closest_of self.a self.b self.c self.e self.f }
    {
        let Products { a, b, c, e, f } = self;
        if a == 0.0 {
            if e == 0.0 {
                return Parameters { s: 0.0, t: 0.0 };
            }
            return Parameters {
                s: 0.0,
                t: cut::cut(f / e),
            };
        }
        if e == 0.0 {
            return Parameters {
                s: cut::cut(-c / a),
                t: 0.0,
            };
        }
        let s = self.inner();
        self.ended(s, (b * s + f) / e)
    }
}

fn point(start: Vec3, d: Vec3, s: f64) -> Vec3
    ensures { result ≡ point_of start d s }
{
    vector::add(start, vector::scale(d, s))
}

pub fn distance(start1: Vec3, end1: Vec3, start2: Vec3, end2: Vec3) -> f64
    ensures { result ≡ distance_of start1 end1 start2 end2 }
{
    let d1 = vector::sub(end1, start1);
    let d2 = vector::sub(end2, start2);
    let r = vector::sub(start1, start2);
    let products = Products {
        a: vector::dot(d1, d1),
        b: vector::dot(d1, d2),
        c: vector::dot(d1, r),
        e: vector::dot(d2, d2),
        f: vector::dot(d2, r),
    };
    let Parameters { s, t } = products.closest();
    vector::norm(vector::sub(point(start1, d1, s), point(start2, d2, t)))
}
