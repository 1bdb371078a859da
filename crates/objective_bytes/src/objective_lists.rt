// What the byte calls on the objective do once their lists are decoded; outputs are bytes.
ghost use Rattle.std.specs.Prelude.{◌≡◌, ◌*◌, ◌≤◌, length, take, [], ◌∷◌};
ghost use Rattle.lists.specs.Splice.{splice};
ghost use Rattle.refusals.specs.Lowest.{first_of};
ghost use Rattle.refusals.specs.Number.{number_of};
ghost use Rattle.refusals.specs.Refusal.{chains_of, weights_refusal, tools_refusal};
ghost use Rattle.lent_bytes.specs.Lent.{room_in, bytes_of};
ghost use Rattle.lent_bytes.specs.SheetLists.{sheet_with, sheet_of, room_of};
ghost use Rattle.arm_bytes.specs.ArmCalls.{output_of};
ghost use Rattle.objective_bytes.specs.ObjectiveCalls.{task_with, task_of, task_number, objective_number, slopes_number, value_in, objective_value, slopes_in};
ghost use Rattle.objective_bytes.specs.ObjectiveLaws.{Passed};

use arm_bytes::tools::tools_refusal;
use gradient::slopes::Rule;
use gradient::{gradient as slopes_of, value as value_of};
use lent_bytes::lent as bytes_lent;
use refusals::refusal::Refusal;
use refusals::{lengths, lent, load, shape};
use task::lay;
use task::picks::Picks;

#[tactic(auto, using(arm_bytes::specs::ArmLaws::sheets), unfolding(refusals::specs::Lowest::first_of, crate::specs::ObjectiveCalls::task_number))]
pub fn task_refusal(
    sizes: &[u16],
    codes: &[u16],
    floats: &[f64],
    limits: &[f64],
    goals: &[f64],
    history: &[f64],
    joints: &[f64],
) -> Result<(), Refusal>
    ensures { number_of result ≡ task_number (sheet_of sizes codes floats limits) goals.now history.now joints.now }
{
    load::load_refusal(sizes, codes, floats, limits)?;
    lent::block_refusal(codes, joints)?;
    lent::history_refusal(codes, history)?;
    lent::goals_refusal(sizes[0] as usize, goals)
}

// Of the lists that may be left out.
#[tactic(auto, unfolding(refusals::specs::Lowest::first_of))]
pub fn optional_refusal(sizes: &[u16], weights: &[f64], tools: &[f64; 32]) -> Result<(), Refusal>
    ensures { number_of result ≡ first_of (weights_refusal weights.now) (tools_refusal (chains_of sizes.now) tools.now) }
{
    lent::weights_refusal(weights)?;
    tools_refusal(sizes, tools)
}

// Sizes of outputs are in bytes.
#[tactic(auto, unfolding(refusals::specs::Lowest::first_of, crate::specs::ObjectiveCalls::optional_number, crate::specs::ObjectiveCalls::slopes_number))]
fn slopes_refusal(
    sizes: &[u16],
    codes: &[u16],
    floats: &[f64],
    limits: &[f64],
    goals: &[f64],
    history: &[f64],
    weights: &[f64],
    tools: &[f64; 32],
    joints: &[f64],
    scratch: usize,
    value: usize,
    slopes: usize,
) -> Result<(), Refusal>
    ensures { number_of result ≡ slopes_number (sheet_of sizes codes floats limits) (task_of goals history weights tools) joints.now (room_in scratch) (room_in value) (room_in slopes) }
{
    task_refusal(sizes, codes, floats, limits, goals, history, joints)?;
    let n = lengths::block_length(codes);
    lent::room_refusal(n, bytes_lent::room(scratch))?;
    lent::room_refusal(1, bytes_lent::room(value))?;
    lent::room_refusal(n, bytes_lent::room(slopes))?;
    optional_refusal(sizes, weights, tools)
}

fn value_on(
    sizes: &[u16],
    codes: &[u16],
    floats: &[f64],
    limits: &[f64],
    goals: &[f64],
    history: &[f64],
    weights: &[f64],
    tools: &[f64; 32],
    picks: Picks,
    joints: &[f64],
) -> f64
    requires { Passed (sheet_with sizes.now codes.now floats.now limits.now) (task_with goals.now history.now weights.now tools.now) joints.now }
    ensures { result ≡ value_in (sheet_of sizes codes floats limits) (task_of goals history weights tools) picks joints.now }
{
    let counts = shape::links(sizes);
    let mut task = [0.0; task::LENGTH];
    lay::lay_lent(
        weights,
        limits,
        goals,
        history,
        tools,
        joints.len(),
        &mut task,
    );
    value_of::objective(counts, codes, floats, &task, picks, joints)
}

// Value and slopes by either rule; `scratch` holds the joints in the end.
fn slopes_on(
    rule: Rule,
    sizes: &[u16],
    codes: &[u16],
    floats: &[f64],
    limits: &[f64],
    goals: &[f64],
    history: &[f64],
    weights: &[f64],
    tools: &[f64; 32],
    picks: Picks,
    joints: &[f64],
    scratch: &mut [f64],
    slopes: &mut [f64],
) -> f64
    requires { (Passed (sheet_with sizes.now codes.now floats.now limits.now) (task_with goals.now history.now weights.now tools.now) joints.now) × (length scratch.old ≡ 16) × (length slopes.old ≡ 16) }
    ensures value { result ≡ value_in (sheet_of sizes codes floats limits) (task_of goals history weights tools) picks joints.now }
    ensures slopes_after { slopes.new ≡ splice slopes.old 0 (slopes_in rule (sheet_of sizes codes floats limits) (task_of goals history weights tools) picks joints.now) }
    ensures scratch_after { scratch.new ≡ splice scratch.old 0 joints.now }
{
    let counts = shape::links(sizes);
    let mut task = [0.0; task::LENGTH];
    lay::lay_lent(
        weights,
        limits,
        goals,
        history,
        tools,
        joints.len(),
        &mut task,
    );
    slopes_of::gradient(
        rule, counts, codes, floats, &task, picks, joints, scratch, slopes,
    )
}

// The first n of x and of d, and v, as bytes.
fn put_answers(
    x: &[f64],
    v: f64,
    d: &[f64],
    n: usize,
    scratch: &mut [u8],
    value: &mut [u8],
    slopes: &mut [u8],
)
    requires n_in_bounds { (n ≤ length x.now) × (n ≤ length d.now) }
    requires n_in_bounds_2 { (8 * n ≤ length scratch.old) × (8 ≤ length value.old) × (8 * n ≤ length slopes.old) }
    ensures scratch_after { scratch.new ≡ splice scratch.old 0 (bytes_of (take n x.now)) }
    ensures value_after { value.new ≡ splice value.old 0 (bytes_of (v ∷ [])) }
    ensures slopes_after { slopes.new ≡ splice slopes.old 0 (bytes_of (take n d.now)) }
{
    let one = [v];
    bytes_lent::put_floats(&x[..n], 0, scratch);
    bytes_lent::put_floats(&one, 0, value);
    bytes_lent::put_floats(&d[..n], 0, slopes);
}

#[tactic(auto, unfolding(refusals::specs::Lowest::first_of, calls::specs::Arms::if_taken, crate::specs::ObjectiveCalls::optional_number, crate::specs::ObjectiveCalls::objective_number))]
pub(crate) fn objective(
    sizes: &[u16],
    codes: &[u16],
    floats: &[f64],
    limits: &[f64],
    goals: &[f64],
    history: &[f64],
    weights: &[f64],
    tools: &[f64; 32],
    picks: Picks,
    joints: &[f64],
    value: &mut [u8],
) -> Result<(), Refusal>
    ensures number { number_of result ≡ objective_number (sheet_of sizes codes floats limits) (task_of goals history weights tools) joints.now (room_of value) }
    ensures value { value.new ≡ output_of (number_of result) value (objective_value (sheet_of sizes codes floats limits) (task_of goals history weights tools) picks joints.now) }
{
    task_refusal(sizes, codes, floats, limits, goals, history, joints)?;
    lent::room_refusal(1, bytes_lent::room(value.len()))?;
    optional_refusal(sizes, weights, tools)?;
    let one = [value_on(
        sizes, codes, floats, limits, goals, history, weights, tools, picks, joints,
    )];
    bytes_lent::put_floats(&one, 0, value);
    Ok(())
}

#[tactic(auto, unfolding(refusals::specs::Lowest::first_of, calls::specs::Arms::if_taken))]
pub(crate) fn gradient(
    rule: Rule,
    sizes: &[u16],
    codes: &[u16],
    floats: &[f64],
    limits: &[f64],
    goals: &[f64],
    history: &[f64],
    weights: &[f64],
    tools: &[f64; 32],
    picks: Picks,
    joints: &[f64],
    scratch: &mut [u8],
    value: &mut [u8],
    slopes: &mut [u8],
) -> Result<(), Refusal>
    ensures number { number_of result ≡ slopes_number (sheet_of sizes codes floats limits) (task_of goals history weights tools) joints.now (room_of scratch) (room_of value) (room_of slopes) }
    ensures scratch { scratch.new ≡ output_of (number_of result) scratch joints.now }
    ensures value { value.new ≡ output_of (number_of result) value (objective_value (sheet_of sizes codes floats limits) (task_of goals history weights tools) picks joints.now) }
    ensures slopes { slopes.new ≡ output_of (number_of result) slopes (slopes_in rule (sheet_of sizes codes floats limits) (task_of goals history weights tools) picks joints.now) }
{
    slopes_refusal(
        sizes,
        codes,
        floats,
        limits,
        goals,
        history,
        weights,
        tools,
        joints,
        scratch.len(),
        value.len(),
        slopes.len(),
    )?;
    let mut x = [0.0; 16];
    let mut d = [0.0; 16];
    let v = slopes_on(
        rule, sizes, codes, floats, limits, goals, history, weights, tools, picks, joints, &mut x,
        &mut d,
    );
    put_answers(&x, v, &d, joints.len(), scratch, value, slopes);
    Ok(())
}
