// What the byte call of the one-block gradient does once its lists are decoded; outputs are bytes.
ghost use Rattle.std.specs.Prelude.{◌≡◌, [], ◌∷◌, ◌*◌, ◌≤◌, length, take};
ghost use Rattle.lists.specs.Splice.{splice};
ghost use Rattle.refusals.specs.Number.{number_of};
ghost use Rattle.lent_bytes.specs.Lent.{room_in, number_room_in, bytes_of, bytes_of_numbers};
ghost use Rattle.lent_bytes.specs.SheetLists.{sheet_with, sheet_of, room_of, number_room_of};
ghost use Rattle.arm_bytes.specs.ArmCalls.{output_of};
ghost use Rattle.objective_bytes.specs.ObjectiveCalls.{task_with, task_of, value_in, objective_value, gradient_slopes};
ghost use Rattle.objective_bytes.specs.ObjectiveLaws.{Passed};
ghost use Rattle.one_block_bytes.specs.OneBlockCalls.{entries_in, one_block_number, RecordHeld, RecordWritten};
ghost use Rattle.one_block_bytes.specs.OneBlockLaws.{Counted, Fitted};

use calls::one_block_slopes as room;
use lent_bytes::lent as bytes_lent;
use objective_bytes::objective_lists;
use one_block::grad;
use refusals::refusal::Refusal;
use refusals::{lengths, lent, shape};
use task::lay;
use task::picks::Picks;

fn entries(sizes: &[u16], codes: &[u16], floats: &[f64], limits: &[f64]) -> usize
    requires { Counted (sheet_with sizes.now codes.now floats.now limits.now) }
    ensures { result ≡ entries_in (sheet_of sizes codes floats limits) }
{
    grad::entries(shape::links(sizes), codes)
}

// Sizes of outputs are in bytes.
#[tactic(auto, unfolding(refusals::specs::Lowest::first_of, objective_bytes::specs::ObjectiveCalls::optional_number, crate::specs::OneBlockCalls::one_block_number))]
fn one_block_refusal(
    sizes: &[u16],
    codes: &[u16],
    floats: &[f64],
    limits: &[f64],
    goals: &[f64],
    history: &[f64],
    weights: &[f64],
    tools: &[f64; 32],
    joints: &[f64],
    value: usize,
    slopes: usize,
    record_joints: usize,
    record_links: usize,
    record_poses: usize,
) -> Result<(), Refusal>
    ensures { number_of result ≡ one_block_number (sheet_of sizes codes floats limits) (task_of goals history weights tools) joints.now
        (room_in value) (room_in slopes) (number_room_in record_joints) (number_room_in record_links) (room_in record_poses) }
{
    objective_lists::task_refusal(sizes, codes, floats, limits, goals, history, joints)?;
    let n = lengths::block_length(codes);
    lent::room_refusal(1, bytes_lent::room(value))?;
    lent::room_refusal(n, bytes_lent::room(slopes))?;
    room::record_refusal(
        entries(sizes, codes, floats, limits),
        bytes_lent::number_room(record_joints),
        bytes_lent::number_room(record_links),
        bytes_lent::room(record_poses),
    )?;
    objective_lists::optional_refusal(sizes, weights, tools)
}

// Value, slopes and record of the decoded block.
fn one_block_on(
    sizes: &[u16],
    codes: &[u16],
    floats: &[f64],
    limits: &[f64],
    goals: &[f64],
    history: &[f64],
    weights: &[f64],
    tools: &[f64; 32],
    picks: Picks,
    block: &mut [f64],
    slopes: &mut [f64],
    record_joints: &mut [u16],
    record_links: &mut [u16],
    record_poses: &mut [f64],
) -> f64
    requires passed { Passed (sheet_with sizes.now codes.now floats.now limits.now) (task_with goals.now history.now weights.now tools.now) block.old }
    requires slopes_len { (length slopes.old ≡ 16) × (length record_joints.old ≡ 320) × (length record_links.old ≡ 320) }
    requires limits_in_bounds { 7 * entries_in (sheet_with sizes.now codes.now floats.now limits.now) ≤ length record_poses.old }
    ensures value { result ≡ value_in (sheet_of sizes codes floats limits) (task_of goals history weights tools) picks block.old }
    ensures block_unchanged { block.new ≡ block.old }
    ensures slopes_after { slopes.new ≡ splice slopes.old 0 (gradient_slopes (sheet_of sizes codes floats limits) (task_of goals history weights tools) picks block.old) }
    ensures record_held { RecordHeld (sheet_of sizes codes floats limits) block.old record_joints record_links record_poses }
{
    let counts = shape::links(sizes);
    let mut task = [0.0; task::LENGTH];
    lay::lay_lent(
        weights,
        limits,
        goals,
        history,
        tools,
        block.len(),
        &mut task,
    );
    grad::gradient(
        counts,
        codes,
        floats,
        &task,
        picks,
        block,
        slopes,
        record_joints,
        record_links,
        record_poses,
    )
}

// v and the first n slopes, as bytes.
fn put_slopes(v: f64, d: &[f64], n: usize, value: &mut [u8], slopes: &mut [u8])
    requires { (n ≤ length d.now) × (8 ≤ length value.old) × (8 * n ≤ length slopes.old) }
    ensures value_after { value.new ≡ splice value.old 0 (bytes_of (v ∷ [])) }
    ensures slopes_after { slopes.new ≡ splice slopes.old 0 (bytes_of (take n d.now)) }
{
    let one = [v];
    bytes_lent::put_floats(&one, 0, value);
    bytes_lent::put_floats(&d[..n], 0, slopes);
}

// The first n entries of a record, as bytes.
fn put_record(
    joints: &[u16],
    links: &[u16],
    poses: &[f64],
    n: usize,
    record_joints: &mut [u8],
    record_links: &mut [u8],
    record_poses: &mut [u8],
)
    requires n_in_bounds { (n ≤ length joints.now) × (n ≤ length links.now) × (7 * n ≤ length poses.now) }
    requires n_in_bounds_2 { (2 * n ≤ length record_joints.old) × (2 * n ≤ length record_links.old) × (8 * (7 * n) ≤ length record_poses.old) }
    ensures record_joints_after { record_joints.new ≡ splice record_joints.old 0 (bytes_of_numbers (take n joints.now)) }
    ensures record_links_after { record_links.new ≡ splice record_links.old 0 (bytes_of_numbers (take n links.now)) }
    ensures record_poses_after { record_poses.new ≡ splice record_poses.old 0 (bytes_of (take (7 * n) poses.now)) }
{
    let wide = 7 * n;
    bytes_lent::put_numbers(&joints[..n], 0, record_joints);
    bytes_lent::put_numbers(&links[..n], 0, record_links);
    bytes_lent::put_floats(&poses[..wide], 0, record_poses);
}

// Value, slopes and record of an accepted call, as bytes; the poses pass through a lent list.
fn put_one_block(
    sizes: &[u16],
    codes: &[u16],
    floats: &[f64],
    limits: &[f64],
    goals: &[f64],
    history: &[f64],
    weights: &[f64],
    tools: &[f64; 32],
    picks: Picks,
    block: &mut [f64],
    poses: &mut [f64],
    value: &mut [u8],
    slopes: &mut [u8],
    record_joints: &mut [u8],
    record_links: &mut [u8],
    record_poses: &mut [u8],
)
    requires fitted { Fitted (sheet_with sizes.now codes.now floats.now limits.now) (task_with goals.now history.now weights.now tools.now) block.old
        (length value.old) (length slopes.old) (length record_joints.old) (length record_links.old) (length record_poses.old) }
    requires limits_in_bounds { 7 * entries_in (sheet_with sizes.now codes.now floats.now limits.now) ≤ length poses.old }
    ensures value_after { value.new ≡ output_of 0 value (objective_value (sheet_of sizes codes floats limits) (task_of goals history weights tools) picks block.old) }
    ensures slopes_after { slopes.new ≡ output_of 0 slopes (gradient_slopes (sheet_of sizes codes floats limits) (task_of goals history weights tools) picks block.old) }
    ensures record_written { RecordWritten 0 (sheet_of sizes codes floats limits) block.old record_joints record_links record_poses }
{
    let mut d = [0.0; 16];
    let mut rj = [0u16; 320];
    let mut rl = [0u16; 320];
    let v = one_block_on(
        sizes, codes, floats, limits, goals, history, weights, tools, picks, block, &mut d,
        &mut rj, &mut rl, poses,
    );
    put_slopes(v, &d, block.len(), value, slopes);
    let m = entries(sizes, codes, floats, limits);
    put_record(
        &rj,
        &rl,
        poses,
        m,
        record_joints,
        record_links,
        record_poses,
    );
}

// The local list of poses is zeroed at every call, so it has one of two sizes: room for 80 entries, or for the most, 320.
#[tactic(auto, unfolding(refusals::specs::Lowest::first_of, calls::specs::Arms::if_taken))]
pub(crate) fn gradient_one_block(
    sizes: &[u16],
    codes: &[u16],
    floats: &[f64],
    limits: &[f64],
    goals: &[f64],
    history: &[f64],
    weights: &[f64],
    tools: &[f64; 32],
    picks: Picks,
    block: &mut [f64],
    value: &mut [u8],
    slopes: &mut [u8],
    record_joints: &mut [u8],
    record_links: &mut [u8],
    record_poses: &mut [u8],
) -> Result<(), Refusal>
    ensures number { number_of result ≡ one_block_number (sheet_of sizes codes floats limits) (task_of goals history weights tools) block.old
        (room_of value) (room_of slopes) (number_room_of record_joints) (number_room_of record_links) (room_of record_poses) }
    ensures value { value.new ≡ output_of (number_of result) value (objective_value (sheet_of sizes codes floats limits) (task_of goals history weights tools) picks block.old) }
    ensures slopes { slopes.new ≡ output_of (number_of result) slopes (gradient_slopes (sheet_of sizes codes floats limits) (task_of goals history weights tools) picks block.old) }
    ensures record_written { RecordWritten (number_of result) (sheet_of sizes codes floats limits) block.old record_joints record_links record_poses }
{
    one_block_refusal(
        sizes,
        codes,
        floats,
        limits,
        goals,
        history,
        weights,
        tools,
        block,
        value.len(),
        slopes.len(),
        record_joints.len(),
        record_links.len(),
        record_poses.len(),
    )?;
    if entries(sizes, codes, floats, limits) <= 80 {
        let mut few = [0.0; 560];
        put_one_block(
            sizes,
            codes,
            floats,
            limits,
            goals,
            history,
            weights,
            tools,
            picks,
            block,
            &mut few,
            value,
            slopes,
            record_joints,
            record_links,
            record_poses,
        );
        return Ok(());
    }
    let mut most = [0.0; 2240];
    put_one_block(
        sizes,
        codes,
        floats,
        limits,
        goals,
        history,
        weights,
        tools,
        picks,
        block,
        &mut most,
        value,
        slopes,
        record_joints,
        record_links,
        record_poses,
    );
    Ok(())
}
