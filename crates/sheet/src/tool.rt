// The tools of an arm, eight floats a chain: 1 where it has a tool, then the tool's seven.
ghost use Rattle.std.specs.Prelude.{◌≡◌, ◌*◌, ◌<◌, length};
ghost use Rattle.sheet.specs.Tool.{has_tool};

#[tactic(auto, unfolding(crate::specs::Tool::has_tool))]
pub fn has_tool(tools: &[f64], c: usize) -> bool
    requires { 8 * c < length tools.now }
    ensures { result ≡ has_tool tools.now c }
{
    tools[8 * c] == 1.0
}
