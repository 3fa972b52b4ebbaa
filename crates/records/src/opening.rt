// The opening, by what was read before.

ghost use Rattle.std.specs.Prelude.{◌≡◌, true, false, ◌≤◌, length};
ghost use Rattle.records.specs.Opening.{large_sizes, complete, open_code, open_block, open_into, block_opened};
ghost use Rattle.refusal.specs.Refusal.{refusal_number};

use crate::setup::Setup;
use graph::sizes;
use open_graph::open;
use refusal::Refusal;

// Whether the sizes are above the program's.
fn large_sizes(s: Setup) -> bool
    ensures { result ≡ large_sizes s }
{
    (64 < s.v) | (128 < s.e) | (32 < s.n) | (2000 < s.l)
}

// Whether the sizes are within their limits, and as many edges were given as they say.
fn complete(s: Setup) -> bool
    ensures { result ≡ complete s }
{
    sizes::sizes_ok(s.v, s.e, s.n, s.l) & (s.edges == s.e)
}

// The graph is opened at the start of the block, if the edges are accepted.
fn open_into(
    s: Setup,
    block: &mut [i64],
    scratch: &[i64],
    edges: &[i64],
    virtuals: &[i64],
) -> Result<(), Refusal>
    requires { (4096 ≤ length block.old) × (576 ≤ length scratch.now) × (384 ≤ length edges.now)
        × (s.virtuals ≤ length virtuals.now) × (large_sizes s ≡ false) × (complete s ≡ true) }
    ensures { (refusal_number result ≡ open_into s edges.now virtuals.now)
        × (block.new ≡ block_opened s edges.now virtuals.now block.old) }
{
    let m = sizes::block_length(s.v, s.e, s.n, s.l);
    let q = sizes::scratch_length(s.v, s.e);
    let p = 3 * s.e;
    let k = s.virtuals;
    open::open(
        &mut block[0..m],
        &scratch[0..q],
        s.v,
        s.e,
        s.n,
        s.l,
        &edges[0..p],
        &virtuals[0..k],
    )
}

// The graph is opened at the start of the block. Refused, the block is as it was.
pub fn open(
    s: Setup,
    block: &mut [i64],
    scratch: &[i64],
    edges: &[i64],
    virtuals: &[i64],
) -> Result<(), Refusal>
    requires { (4096 ≤ length block.old) × (576 ≤ length scratch.now) × (384 ≤ length edges.now) × (s.virtuals ≤ length virtuals.now) }
    ensures { (refusal_number result ≡ open_code s edges.now virtuals.now)
        × (block.new ≡ open_block s edges.now virtuals.now block.old) }
{
    if large_sizes(s) {
        return Err(Refusal::OutOfRange);
    }
    if !complete(s) {
        return Err(Refusal::OutOfRange);
    }
    if s.bad {
        return Err(Refusal::NoSuch);
    }
    open_into(s, block, scratch, edges, virtuals)
}
