// Refusal 11: a tool for a chain, and the tools of all chains, eight floats each.
ghost use Rattle.std.specs.Prelude.{◌≡◌, ◌+◌, ◌*◌, ◌≤◌, length};
ghost use Rattle.refusals.specs.Number.{number_of};
ghost use Rattle.refusals.specs.Refusal.{tool_refusal, tool_fits, tools_refusal};

use crate::load;
use crate::refusal::Refusal;
use sheet::tool;

#[tactic(auto, unfolding(crate::specs::Refusal::bad_tool, crate::specs::Refusal::tool_refusal))]
pub fn tool_refusal(chains: usize, c: usize, tool: &[f64]) -> Result<(), Refusal>
    ensures { number_of result ≡ tool_refusal chains c tool.now }
{
    if c >= chains {
        return Err(Refusal::Tool);
    }
    if tool.len() != 7 {
        return Err(Refusal::Tool);
    }
    if load::seven_fit(tool, 0) {
        Ok(())
    } else {
        Err(Refusal::Tool)
    }
}

#[tactic(auto, unfolding(crate::specs::Refusal::tool_fits))]
fn tool_fits(chains: usize, tools: &[f64], c: usize) -> bool
    requires { 8 * c + 8 ≤ length tools.now }
    ensures { result ≡ tool_fits chains tools.now c }
{
    !tool::has_tool(tools, c) || c < chains && load::seven_fit(tools, 8 * c + 1)
}

// All four chains are looked at: one that is not loaded may have no tool.
#[tactic(auto, using(crate::specs::Range::turns), unfolding(crate::specs::Refusal::bad_tools, crate::specs::Refusal::tools_refusal))]
pub fn tools_refusal(chains: usize, tools: &[f64]) -> Result<(), Refusal>
    requires { 32 ≤ length tools.now }
    ensures { number_of result ≡ tools_refusal chains tools.now }
{
    let mut ok = true;
    for c in 0..4 {
        ok &= tool_fits(chains, tools, c);
    }
    if ok { Ok(()) } else { Err(Refusal::Tool) }
}
