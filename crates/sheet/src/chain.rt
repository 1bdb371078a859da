// Chains and joints: `counts` has the links of each chain, without the chain count in front.
ghost use Rattle.std.specs.Prelude.{◌≡◌, ◌+◌, ◌≤◌, ◌<◌, ◌^◌, length, get_or};
ghost use Rattle.sheet.specs.Code.{has_joint};
ghost use Rattle.sheet.specs.Chain.{first_in, end_in, total, joints_of, joint_of};

use super::reader::Reader;
use super::{code, reader};

// Whether a link is the first of a chain.
pub fn is_first(counts: &[u16], link: usize) -> bool
    ensures { result ≡ first_in counts.now link }
{
    let mut k = link;
    for n in counts {
        if k == 0 {
            return true;
        }
        let n = *n as usize;
        if k < n {
            return false;
        }
        k -= n;
    }
    k == 0
}

// The end of the chain of a link.
pub fn chain_end(counts: &[u16], link: usize) -> usize
    requires { length counts.now ≤ 4 }
    ensures { result ≡ end_in counts.now link }
{
    let mut k = link;
    let mut s: usize = 0;
    for n in counts {
        let n = *n as usize;
        s += n;
        if k < n {
            return s;
        }
        k -= n;
    }
    s
}

// The links of all chains.
pub fn total_links(counts: &[u16]) -> usize
    requires { length counts.now ≤ 4 }
    ensures { result ≡ total counts.now }
{
    let mut s: usize = 0;
    for n in counts {
        s += *n as usize;
    }
    s
}

// Whether a link has a joint.
pub fn has_joint_at(codes: &[u16], link: usize) -> bool
    ensures { result ≡ has_joint (get_or codes.now link 0) }
{
    code::has_joint(reader::read(codes, link))
}

// The joints with that of a link of that code.
#[tactic(auto, unfolding(crate::specs::Code::has_joint, crate::specs::Chain::joints_of))]
fn counted(code: u16, joints: usize) -> usize
    requires { joints + 1 < 2 ^ 64 }
    ensures { result ≡ joints + joints_of code }
{
    if code::has_joint(code) {
        joints + 1
    } else {
        joints
    }
}

// The number of the joint after a link.
pub fn next_joint(codes: &[u16], link: usize, joint: usize) -> usize
    requires { (link < length codes.now) × (joint + 1 < 2 ^ 64) }
    ensures { result ≡ joint + joints_of (get_or codes.now link 0) }
{
    counted(reader::read(codes, link), joint)
}

// The joints of the links before a link.
fn joints_to(codes: &[u16], link: usize) -> usize
    requires { link ≤ length codes.now }
    ensures { result ≡ joint_of codes.now link }
{
    let mut r = Reader::new(codes, 0);
    let mut j: usize = 0;
    for _ in 0..link {
        j = counted(r.next(), j);
        r = r.moved();
    }
    j
}

// The number of a link's joint; at the length of the list, the number of all joints. Read from the part before the link, whose end is where
// the loop ends: so no link is asked for past the end, and the compiler sees it.
pub fn joint_number(codes: &[u16], link: usize) -> usize
    requires { link ≤ length codes.now }
    ensures { result ≡ joint_of codes.now link }
{
    let before = &codes[..link];
    joints_to(before, before.len())
}
