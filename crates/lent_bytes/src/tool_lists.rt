// The tools that a call is lent, one list a chain, decoded in one place.
ghost use Rattle.std.specs.Prelude.{◌≡◌};
ghost use Rattle.lent_bytes.specs.ToolLists.{seven_from, tool_from, tool_floats_in, tools_in};

use crate::held::Held;
use crate::{held, lent};
use task::lay;

// The floats of a tool's list.
pub fn floats(b: &[u8]) -> Held<f64, 7>
    ensures { result ≡ tool_floats_in b }
{
    held::decode(b)
}

// The seven floats of a list, NaNs where it has not seven.
fn seven(b: &[u8]) -> [f64; 7]
    ensures { result ≡ seven_from b.now }
{
    let mut t = [0.0; 7];
    let n = lent::decode(b, &mut t);
    if n == 7 {
        return t;
    }
    let nan = 0.0 / 0.0;
    [nan; 7]
}

// A chain's eight floats: 1 and the tool's seven, or zeros for none.
fn tool(b: &[u8]) -> [f64; 8]
    ensures { result ≡ tool_from b.now }
{
    if b.len() == 0 {
        return [0.0; 8];
    }
    let mut t = [1.0; 8];
    let floats = seven(b);
    lay::put(&floats, 1, &mut t);
    t
}

// Eight floats a chain, for four chains.
pub fn decode(tool0: &[u8], tool1: &[u8], tool2: &[u8], tool3: &[u8]) -> [f64; 32]
    ensures { result ≡ tools_in tool0 tool1 tool2 tool3 }
{
    let mut tools = [0.0; 32];
    let first = tool(tool0);
    let second = tool(tool1);
    let third = tool(tool2);
    let fourth = tool(tool3);
    lay::put(&first, 0, &mut tools);
    lay::put(&second, 8, &mut tools);
    lay::put(&third, 16, &mut tools);
    lay::put(&fourth, 24, &mut tools);
    tools
}
