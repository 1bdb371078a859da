// Refusals 7 to 10: what a call is lent beside the sheet. A call answers the first of those that apply, in order.
ghost use Rattle.std.specs.Prelude.{◌≡◌, ℕ, ◌+◌, ◌*◌, ◌≤◌, length};
ghost use Rattle.refusals.specs.Range.{every};
ghost use Rattle.refusals.specs.Number.{number_of};
ghost use Rattle.sheet.specs.Code.{kind_of};
ghost use Rattle.sheet.specs.Chain.{joints_of};
ghost use Rattle.refusals.specs.Lengths.{block_length};
ghost use Rattle.refusals.specs.Refusal.{joint_range, joint_fits, value_fits, block_fits, block_refusal, history_fits, history_refusal, goal_fits, goals_refusal, room_refusal, weight_fits, weights_refusal};

use crate::refusal::Refusal;
use crate::{lengths, range};
use sheet::code::Kind;
use sheet::{chain, code};

// How far a joint may go to either side.
#[tactic(auto, unfolding(crate::specs::Refusal::joint_range))]
fn joint_range(code: u16) -> f64
    ensures { result ≡ joint_range (kind_of code) }
{
    match code::take_apart(code) {
        Kind::Fixed => 8.0,
        Kind::Turning(_) => 64.0,
        Kind::Sliding(_) => 8.0,
        Kind::Telescoping(_) => 8.0,
        Kind::Unlisted => 8.0,
    }
}

// The one test of a joint's value, by its link's code.
#[tactic(auto, unfolding(crate::specs::Refusal::joint_fits))]
fn joint_fits(code: u16, value: f64) -> bool
    ensures { result ≡ joint_fits code value }
{
    range::is_within(joint_range(code), value)
}

#[tactic(auto, unfolding(sheet::specs::Chain::joints_of, crate::specs::Refusal::value_fits))]
fn value_fits(code: u16, list: &[f64], at: usize) -> bool
    requires { at + joints_of code ≤ length list.now }
    ensures { result ≡ value_fits code list.now at }
{
    if !code::has_joint(code) {
        return true;
    }
    joint_fits(code, list[at])
}

// Whether every joint of a block is in its range.
fn block_fits(codes: &[u16], block: &[f64]) -> bool
    requires { block_length codes.now ≤ length block.now }
    ensures { result ≡ block_fits codes.now block.now 0 }
{
    let mut ok = true;
    let mut j = 0;
    for (l, code) in codes.iter().enumerate() {
        ok &= value_fits(*code, block, j);
        j = chain::next_joint(codes, l, j);
    }
    ok
}

#[tactic(auto, using(crate::specs::Plain::near), unfolding(crate::specs::Refusal::bad_block, crate::specs::Refusal::block_refusal))]
pub fn block_refusal(codes: &[u16], block: &[f64]) -> Result<(), Refusal>
    ensures { number_of result ≡ block_refusal codes.now block.now }
{
    if block.len() != lengths::block_length(codes) {
        return Err(Refusal::Block);
    }
    // What is within the narrowest range fits any code: none has to be taken apart.
    if range::all_within(8.0, block) || block_fits(codes, block) {
        return Ok(());
    }
    Err(Refusal::Block)
}

// Whether a link's joint is in its range in each of a history's four blocks, n values apart.
#[tactic(auto, unfolding(sheet::specs::Chain::joints_of, crate::specs::Range::every, crate::specs::Refusal::value_fits))]
fn joint_history_fits(code: u16, history: &[f64], j: usize, n: usize) -> bool
    requires { 3 * n + j + joints_of code ≤ length history.now }
    ensures { result ≡ every (λ (b : ℕ). value_fits code history.now (b * n + j)) 4 }
{
    if !code::has_joint(code) {
        return true;
    }
    joint_fits(code, history[j])
        & joint_fits(code, history[n + j])
        & joint_fits(code, history[2 * n + j])
        & joint_fits(code, history[3 * n + j])
}

// Whether every joint of a history's four blocks is in its range, in one pass over the links.
fn history_fits(codes: &[u16], history: &[f64], n: usize) -> bool
    requires { (n ≡ block_length codes.now) × (4 * n ≤ length history.now) }
    ensures { result ≡ every (history_fits codes.now history.now) 4 }
{
    let mut ok = true;
    let mut j: usize = 0;
    for (l, code) in codes.iter().enumerate() {
        ok &= joint_history_fits(*code, history, j, n);
        j = chain::next_joint(codes, l, j);
    }
    ok
}

// A history is four joint blocks.
#[tactic(auto, using(crate::specs::Plain::near), unfolding(crate::specs::Refusal::bad_history, crate::specs::Refusal::history_refusal))]
pub fn history_refusal(codes: &[u16], history: &[f64]) -> Result<(), Refusal>
    ensures { number_of result ≡ history_refusal codes.now history.now }
{
    let n = lengths::block_length(codes);
    if history.len() != 4 * n {
        return Err(Refusal::Block);
    }
    if range::all_within(8.0, history) || history_fits(codes, history, n) {
        return Ok(());
    }
    Err(Refusal::Block)
}

#[tactic(auto, using(crate::specs::Range::parts), unfolding(crate::specs::Refusal::goal_fits))]
fn goal_fits(goals: &[f64], chain: usize) -> bool
    requires { 13 * chain + 13 ≤ length goals.now }
    ensures { result ≡ goal_fits goals.now chain }
{
    let at = 13 * chain;
    range::all_within(100.0, &goals[at..at + 3])
        && range::all_within(100.0, &goals[at + 7..at + 13])
        && range::unit(&goals[at + 3..at + 7])
}

#[tactic(auto, using(crate::specs::Range::turns), unfolding(crate::specs::Refusal::bad_goals, crate::specs::Refusal::goals_refusal))]
pub fn goals_refusal(chains: usize, goals: &[f64]) -> Result<(), Refusal>
    ensures { number_of result ≡ goals_refusal chains goals.now }
{
    // By division, since 13 * chains may not fit.
    if goals.len() / 13 != chains || goals.len() % 13 != 0 {
        return Err(Refusal::Goals);
    }
    let mut ok = true;
    for c in 0..chains {
        ok &= goal_fits(goals, c);
    }
    if ok { Ok(()) } else { Err(Refusal::Goals) }
}

#[tactic(auto, unfolding(crate::specs::Refusal::room_refusal))]
pub fn room_refusal(needed: usize, have: usize) -> Result<(), Refusal>
    ensures { number_of result ≡ room_refusal needed have }
{
    if have < needed {
        return Err(Refusal::Room);
    }
    Ok(())
}

#[tactic(auto, unfolding(crate::specs::Refusal::weight_fits))]
fn weight_fits(weight: f64) -> bool
    ensures { result ≡ weight_fits weight }
{
    0.0 <= weight && weight <= 1000.0
}

// A weight for each kind of objective.
#[tactic(auto, using(crate::specs::Range::turns), unfolding(crate::specs::Refusal::weight_fits_at, crate::specs::Refusal::bad_weights, crate::specs::Refusal::weights_refusal))]
pub fn weights_refusal(weights: &[f64]) -> Result<(), Refusal>
    ensures { number_of result ≡ weights_refusal weights.now }
{
    if weights.len() != 8 {
        return Err(Refusal::Weights);
    }
    let mut ok = true;
    for weight in weights {
        ok &= weight_fits(*weight);
    }
    if ok { Ok(()) } else { Err(Refusal::Weights) }
}
