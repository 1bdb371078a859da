// The sheet's four lists, decoded in one place: every byte call that is lent a sheet asks here.
ghost use Rattle.std.specs.Prelude.{◌≡◌, []};
ghost use Rattle.lent_bytes.specs.SheetLists.{sizes_in, codes_in, link_floats_in, limits_in};

use crate::held;
use crate::held::Held;

// Each with room for the longest that is taken.
#[derive(Drop)]
pub struct Sheet {
    pub sizes: Held<u16, 5>,
    pub codes: Held<u16, 64>,
    pub floats: Held<f64, 448>,
    pub limits: Held<f64, 32>,
}

// Kept: filled in place; a sheet that is returned by value is copied, and loading took twice as long.
impl Sheet {
    pub fn empty() -> Self
        ensures { (result.sizes ≡ []) × (result.codes ≡ []) × (result.floats ≡ []) × (result.limits ≡ []) }
    {
        Sheet {
            sizes: Held::empty(),
            codes: Held::empty(),
            floats: Held::empty(),
            limits: Held::empty(),
        }
    }

    pub fn decode(&mut self, sizes: &[u8], codes: &[u8], floats: &[u8], limits: &[u8])
        ensures sizes { self.new.sizes ≡ sizes_in sizes }
        ensures codes { self.new.codes ≡ codes_in codes }
        ensures floats { self.new.floats ≡ link_floats_in floats }
        ensures limits { self.new.limits ≡ limits_in limits }
    {
        held::refill(sizes, &mut self.sizes);
        held::refill(codes, &mut self.codes);
        held::refill(floats, &mut self.floats);
        held::refill(limits, &mut self.limits);
    }
}
