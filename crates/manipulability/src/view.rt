// Poses read through a view: two lists of seven floats a link, and the links of the second.
ghost use Rattle.std.specs.Prelude.{◌≡◌, ◌+◌};
ghost use Rattle.manipulability.specs.View.{walked_again, seen_by, HasLinks};

use geometry::pose::Pose;
use geometry::vector::Vec3;
use spacetime::floats;

// A walk's poses in `base`, but those of the links from `from` on and below `to`, which were walked again, in `tail`.
#[derive(Clone, Copy)]
pub struct Poses<'a> {
    pub base: &'a [f64],
    pub tail: &'a [f64],
    pub from: usize,
    pub to: usize,
}

impl<'a> Poses<'a> {
    pub fn walked_again(self, link: usize) -> bool
        ensures { result ≡ walked_again self.entry.from self.entry.to link }
    {
        self.from <= link && link < self.to
    }

    // The pose after a link.
    pub fn pose(self, link: usize) -> Pose
        requires { HasLinks self (link + 1) }
        ensures { result ≡ seen_by self.entry link }
    {
        if self.walked_again(link) {
            return floats::get(self.tail, 7 * (link - self.from));
        }
        floats::get(self.base, 7 * link)
    }

    // The position alone.
    pub fn position(self, link: usize) -> Vec3
        requires { HasLinks self (link + 1) }
        ensures { result ≡ (seen_by self.entry link).position }
    {
        if self.walked_again(link) {
            return floats::get_vec(self.tail, 7 * (link - self.from));
        }
        floats::get_vec(self.base, 7 * link)
    }
}
