// What the calls on the objective are lent beside the sheet and the joints, decoded in one place.
ghost use Rattle.std.specs.Prelude.{◌≡◌};
ghost use Rattle.lent_bytes.specs.SheetLists.{goals_in, history_in};
ghost use Rattle.lent_bytes.specs.ToolLists.{tools_in};
ghost use Rattle.objective_bytes.specs.ObjectiveCalls.{in_force_from};

use crate::weights;
use lent_bytes::held::Held;
use lent_bytes::{task_lists, tool_lists};

#[derive(Drop)]
pub struct Task {
    pub goals: Held<f64, 52>,
    pub history: Held<f64, 64>,
    // those in force
    pub weights: Held<f64, 8>,
    pub tools: [f64; 32],
}

pub fn decode(
    goals: &[u8],
    history: &[u8],
    weights: &[u8],
    tool0: &[u8],
    tool1: &[u8],
    tool2: &[u8],
    tool3: &[u8],
) -> Task
    ensures goals { result.goals ≡ goals_in goals }
    ensures history { result.history ≡ history_in history }
    ensures weights { result.weights ≡ in_force_from weights.now }
    ensures tools { result.tools ≡ tools_in tool0 tool1 tool2 tool3 }
{
    Task {
        goals: task_lists::goals(goals),
        history: task_lists::history(history),
        weights: weights::decode(weights),
        tools: tool_lists::decode(tool0, tool1, tool2, tool3),
    }
}
