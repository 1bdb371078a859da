// The parts of a task's list, for so many chains and joints.
ghost use Rattle.std.specs.Prelude.{◌≡◌, ◌+◌, ◌*◌, ◌≤◌, length};
ghost use Rattle.task.specs.Task.{part, task_length, weights_of, limits_of, goals_of, xopt_of, prev_state_of, prev_state2_of, tools_of};

pub(crate) fn part(task: &[f64], at: usize, n: usize) -> &[f64]
    requires { at + n ≤ length task.now }
    ensures { (result.now ≡ part at n task.now) × (length result.now ≡ n) }
{
    let end = at + n;
    &task[at..end]
}

pub fn weights(task: &[f64]) -> &[f64]
    requires { length task.now ≡ task_length }
    ensures { (result.now ≡ weights_of task.now) × (length result.now ≡ 8) }
{
    part(task, 0, 8)
}

pub fn limits(task: &[f64], joints: usize) -> &[f64]
    requires { (length task.now ≡ task_length) × (joints ≤ 16) }
    ensures { (result.now ≡ limits_of joints task.now) × (length result.now ≡ 2 * joints) }
{
    part(task, 8, 2 * joints)
}

pub fn goals(task: &[f64], chains: usize) -> &[f64]
    requires { (length task.now ≡ task_length) × (chains ≤ 4) }
    ensures { (result.now ≡ goals_of chains task.now) × (length result.now ≡ 13 * chains) }
{
    part(task, 40, 13 * chains)
}

// Kept: three functions of one shape, since the blocks of the history go by the names that they have in the source.
pub fn xopt(task: &[f64], joints: usize) -> &[f64]
    requires { (length task.now ≡ task_length) × (joints ≤ 16) }
    ensures { (result.now ≡ xopt_of joints task.now) × (length result.now ≡ joints) }
{
    part(task, 92, joints)
}

pub fn prev_state(task: &[f64], joints: usize) -> &[f64]
    requires { (length task.now ≡ task_length) × (joints ≤ 16) }
    ensures { (result.now ≡ prev_state_of joints task.now) × (length result.now ≡ joints) }
{
    part(task, 108, joints)
}

pub fn prev_state2(task: &[f64], joints: usize) -> &[f64]
    requires { (length task.now ≡ task_length) × (joints ≤ 16) }
    ensures { (result.now ≡ prev_state2_of joints task.now) × (length result.now ≡ joints) }
{
    part(task, 124, joints)
}

pub fn tools(task: &[f64], chains: usize) -> &[f64]
    requires { (length task.now ≡ task_length) × (chains ≤ 4) }
    ensures { (result.now ≡ tools_of chains task.now) × (length result.now ≡ 8 * chains) }
{
    part(task, 140, 8 * chains)
}
