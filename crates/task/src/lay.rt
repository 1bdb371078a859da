// The list laid out of lists that are stored or lent apart.
ghost use Rattle.std.specs.Prelude.{◌≡◌, ◌+◌, ◌*◌, ◌≤◌, length};
ghost use Rattle.lists.specs.Splice.{splice};
ghost use Rattle.task.specs.Task.{task_length};
ghost use Rattle.task.specs.Laid.{apart, apart_in, Fit, laid};

use crate::parts;

// A list written to its place.
pub fn put(src: &[f64], at: usize, task: &mut [f64])
    requires { at + length src.now ≤ length task.old }
    ensures { task.new ≡ splice task.old at src.now }
{
    lists::copy(src, &mut task[at..]);
}

// The joint blocks.
fn lay_blocks(xopt: &[f64], prev_state: &[f64], prev_state2: &[f64], task: &mut [f64])
    requires { (length task.old ≡ task_length) × (length xopt.now ≤ 16) × (length prev_state.now ≤ 16) × (length prev_state2.now ≤ 16) }
    ensures { task.new ≡ splice (splice (splice task.old 92 xopt.now) 108 prev_state.now) 124 prev_state2.now }
{
    put(xopt, 92, task);
    put(prev_state, 108, task);
    put(prev_state2, 124, task);
}

// Lists of any length that fits. Lists that come in a group have a function of their own, as the joint blocks have.
pub fn lay(
    weights: &[f64],
    limits: &[f64],
    goals: &[f64],
    xopt: &[f64],
    prev_state: &[f64],
    prev_state2: &[f64],
    tools: &[f64],
    task: &mut [f64],
)
    requires task_len { length task.old ≡ task_length }
    requires fit { Fit (apart weights.now limits.now goals.now xopt.now prev_state.now prev_state2.now tools.now) }
    ensures { task.new ≡ laid (apart weights.now limits.now goals.now xopt.now prev_state.now prev_state2.now tools.now) task.old }
{
    put(weights, 0, task);
    put(limits, 8, task);
    put(goals, 40, task);
    lay_blocks(xopt, prev_state, prev_state2, task);
    put(tools, 140, task);
}

// Of stored arrays.
pub fn lay_stored(
    weights: &[f64; 8],
    limits: &[f64; 32],
    goals: &[f64; 52],
    xopt: &[f64; 16],
    prev_state: &[f64; 16],
    prev_state2: &[f64; 16],
    tools: &[f64; 32],
    task: &mut [f64],
)
    requires { length task.old ≡ task_length }
    ensures { task.new ≡ laid (apart weights.now limits.now goals.now xopt.now prev_state.now prev_state2.now tools.now) task.old }
{
    lay(
        weights,
        limits,
        goals,
        xopt,
        prev_state,
        prev_state2,
        tools,
        task,
    );
}

// Of lists as they are lent, each as long as it is in use; the history is one list of blocks of `joints` floats, the newest first.
pub fn lay_lent(
    weights: &[f64],
    limits: &[f64],
    goals: &[f64],
    history: &[f64],
    tools: &[f64],
    joints: usize,
    task: &mut [f64],
)
    requires task_len { length task.old ≡ task_length }
    requires joints_bound { (joints ≤ 16) × (3 * joints ≤ length history.now) }
    requires fit { Fit (apart_in weights.now limits.now goals.now history.now tools.now joints) }
    ensures { task.new ≡ laid (apart_in weights.now limits.now goals.now history.now tools.now joints) task.old }
{
    let xopt = parts::part(history, 0, joints);
    let prev_state = parts::part(history, joints, joints);
    let prev_state2 = parts::part(history, 2 * joints, joints);
    lay(
        weights,
        limits,
        goals,
        xopt,
        prev_state,
        prev_state2,
        tools,
        task,
    );
}
