// Refusals 1 to 4: what the sizes list, the lengths and the codes say.
ghost use Rattle.std.specs.Prelude.{◌≡◌, ◌≤◌, ◌<◌, ◌||◌, eqb, leb, length};
ghost use Rattle.sheet.specs.Chain.{total};
ghost use Rattle.refusals.specs.Range.{every};
ghost use Rattle.refusals.specs.Number.{number_of};
ghost use Rattle.refusals.specs.Refusal.{links_of, links_fit, bad_sizes, bad_lengths, listed_code, bad_codes, bad_joints, shape_refusal};

use crate::range;
use crate::refusal::Refusal;
use sheet::code::Kind;
use sheet::{chain, code};

// The links per chain, without the chain count in front.
pub fn links(sizes: &[u16]) -> &[u16]
    ensures { result.now ≡ links_of sizes.now }
{
    match sizes {
        [] => sizes,
        [_, counts @ ..] => counts,
    }
}

#[tactic(auto, using(crate::specs::Range::turns), unfolding(crate::specs::Refusal::links_fit))]
fn links_fit(counts: &[u16]) -> bool
    ensures { result ≡ every (links_fit counts.now) (length counts.now) }
{
    let mut ok = true;
    for n in counts {
        ok &= range::is_between(1, 16, *n as usize);
    }
    ok
}

#[tactic(auto, unfolding(crate::specs::Refusal::bad_sizes))]
fn bad_sizes(sizes: &[u16]) -> bool
    ensures { result ≡ bad_sizes sizes.now }
{
    let [chains, counts @ ..] = sizes else {
        return true;
    };
    let chains = *chains as usize;
    counts.len() != chains || !range::is_between(1, 4, chains) || !links_fit(counts)
}

#[tactic(auto, unfolding(crate::specs::Refusal::bad_lengths))]
fn bad_lengths(counts: &[u16], codes: &[u16], floats: usize) -> bool
    requires { (length counts.now ≤ 4) × (total counts.now ≤ 64) }
    ensures { result ≡ bad_lengths counts.now codes.now floats }
{
    let n = chain::total_links(counts);
    codes.len() != n || floats != 7 * n
}

#[tactic(auto, unfolding(crate::specs::Refusal::listed_code, crate::specs::Refusal::listed_kind))]
fn is_listed(k: u16) -> bool
    ensures { result ≡ listed_code k }
{
    match code::take_apart(k) {
        Kind::Fixed => true,
        Kind::Turning(_) => true,
        Kind::Sliding(_) => true,
        Kind::Telescoping(_) => true,
        Kind::Unlisted => false,
    }
}

#[tactic(auto, using(crate::specs::Range::turns), unfolding(crate::specs::Refusal::listed_at, crate::specs::Refusal::bad_codes))]
fn bad_codes(codes: &[u16]) -> bool
    ensures { result ≡ bad_codes codes.now }
{
    let mut ok = true;
    for code in codes {
        ok &= is_listed(*code);
    }
    !ok
}

fn later_fits(c: usize, joints: usize, most: usize) -> bool
    ensures { result ≡ (eqb c 0 || leb joints most) }
{
    c == 0 || joints <= most
}

fn bad_joints(counts: &[u16], codes: &[u16]) -> bool
    requires { (0 < length counts.now) × (total counts.now ≡ length codes.now) × (length codes.now ≤ 64) }
    ensures { result ≡ bad_joints counts.now codes.now }
{
    let most = counts[0] as usize;
    // So far every chain has two joints, and no later chain has more than chain 0 has links.
    let mut two = true;
    let mut few = true;
    let mut link: usize = 0;
    let mut joint: usize = 0;
    for (c, n) in counts.iter().enumerate() {
        link += *n as usize;
        let next = chain::joint_number(codes, link);
        let moving = next - joint;
        two &= 2 <= moving;
        few &= later_fits(c, moving, most);
        joint = next;
    }
    if !two {
        return true;
    }
    if joint > 16 {
        return true;
    }
    !few
}

// `floats` is how many floats the sheet has.
#[tactic(auto, using(crate::specs::Passed::sheets), unfolding(crate::specs::Lowest::lowest, crate::specs::Lowest::lowest_from, crate::specs::Refusal::shape_refusal))]
pub fn shape_refusal(sizes: &[u16], codes: &[u16], floats: usize) -> Result<(), Refusal>
    ensures { number_of result ≡ shape_refusal sizes.now codes.now floats }
{
    if bad_sizes(sizes) {
        return Err(Refusal::Sizes);
    }
    let counts = links(sizes);
    if bad_lengths(counts, codes, floats) {
        return Err(Refusal::Lengths);
    }
    if bad_codes(codes) {
        return Err(Refusal::Codes);
    }
    if bad_joints(counts, codes) {
        return Err(Refusal::Joints);
    }
    Ok(())
}
