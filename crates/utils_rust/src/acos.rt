// The inverse cosine by document 02's formula.
ghost use Rattle.std.specs.Prelude.{◌≡◌};
ghost use Rattle.utils_rust.specs.Acos.{acute_of, acos_of};

use standins::{cut, series};

// The angle whose cosine is the size of w.
fn acute(w: f64) -> f64
    ensures { result ≡ acute_of w }
{
    let root = root::sqrt(1.0 - w * w);
    if root == 0.0 {
        return 0.0;
    }
    series::atan2(root, cut::abs(w))
}

pub fn acos(w: f64) -> f64
    ensures { result ≡ acos_of w }
{
    let a = acute(w);
    if w < 0.0 {
        return 3.141592653589793 - a;
    }
    a
}
