// How long a call's lists are. `counts` has the links of each chain, without the chain count in front.
ghost use Rattle.std.specs.Prelude.{◌≡◌, ◌≤◌, length};
ghost use Rattle.sheet.specs.Chain.{total};
ghost use Rattle.refusals.specs.Lengths.{positions_length, rotations_length, ends_length, block_length, history_length, record_poses_length};

use sheet::chain;

pub fn positions_length(counts: &[u16]) -> usize
    requires { (length counts.now ≤ 4) × (total counts.now ≤ 64) }
    ensures { result ≡ positions_length counts.now }
{
    3 * (chain::total_links(counts) + counts.len())
}

pub fn rotations_length(counts: &[u16]) -> usize
    requires { (length counts.now ≤ 4) × (total counts.now ≤ 64) }
    ensures { result ≡ rotations_length counts.now }
{
    4 * (chain::total_links(counts) + 2 * counts.len())
}

pub fn ends_length(counts: &[u16]) -> usize
    requires { length counts.now ≤ 4 }
    ensures { result ≡ ends_length counts.now }
{
    7 * counts.len()
}

pub fn record_poses_length(entries: usize) -> usize
    requires { entries ≤ 4160 }
    ensures { result ≡ record_poses_length entries }
{
    7 * entries
}

// Of a joint block; a scratch block and a list of slopes are as long.
pub fn block_length(codes: &[u16]) -> usize
    ensures { result ≡ block_length codes.now }
{
    chain::joint_number(codes, codes.len())
}

pub fn history_length(codes: &[u16]) -> usize
    ensures { result ≡ history_length codes.now }
{
    4 * block_length(codes)
}
