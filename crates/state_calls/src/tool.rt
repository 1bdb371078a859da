// Setting a chain's tool.
ghost use Rattle.std.specs.Prelude.{◌≡◌, ◌∷◌, ◌+◌, ◌<◌, length};
ghost use Rattle.lists.specs.Splice.{splice};
ghost use Rattle.standins.specs.Num.{one};
ghost use Rattle.state_calls.specs.Load.{answered};
ghost use Rattle.state_calls.specs.Tools.{set_tool_of};

use crate::state;
use crate::state::{Arms, State};
use refusals::refusal::Refusal;
use refusals::tools;
use task::lay;

// A chain's eight floats: 1, then the tool's seven.
fn put_tool(tool: &[f64], at: usize, tools: &mut [f64])
    requires { at + length tool.now < length tools.old }
    ensures { tools.new ≡ splice tools.old at (one ∷ tool.now) }
{
    tools[at] = 1.0;
    lay::put(tool, at + 1, tools);
}

// Keeps a tool for a chain in place of the one before. Start poses stay as they are until the next reset.
#[tactic(auto, unfolding(crate::specs::StoredSheet::if_arms, crate::specs::StoredSheet::tool_stored, crate::specs::Tools::set_tool_of, crate::specs::Tools::with_tool, crate::specs::Tools::arms_with_tool, crate::specs::Load::outcome_of))]
pub fn set_tool(state: State, chain: usize, tool: &[f64]) -> Result<State, Refusal>
    ensures { answered state result ≡ set_tool_of state chain tool.now }
{
    let sheet = state::in_use(&state.arms)?;
    tools::tool_refusal(sheet.counts.len(), chain, tool)?;
    let mut tools = state.arms.tools;
    put_tool(tool, 8 * chain, &mut tools);
    Ok(State {
        arms: Arms {
            tools,
            ..state.arms
        },
        ..state
    })
}
