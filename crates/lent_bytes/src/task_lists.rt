// Goals, history and joints, each decoded in one place with room for the longest that is taken.
ghost use Rattle.std.specs.Prelude.{◌≡◌};
ghost use Rattle.lent_bytes.specs.SheetLists.{goals_in, history_in, block_in};

use crate::held;
use crate::held::Held;

pub fn goals(b: &[u8]) -> Held<f64, 52>
    ensures { result ≡ goals_in b }
{
    held::decode(b)
}

pub fn history(b: &[u8]) -> Held<f64, 64>
    ensures { result ≡ history_in b }
{
    held::decode(b)
}

pub fn joints(b: &[u8]) -> Held<f64, 16>
    ensures { result ≡ block_in b }
{
    held::decode(b)
}
