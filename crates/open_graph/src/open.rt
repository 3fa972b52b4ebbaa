// Opening a graph in a block: the refusals, and the call.

ghost use Rattle.std.specs.Prelude.{◌≡◌, true, ◌≤◌};
ghost use Rattle.graph.specs.Open.{sizes_ok, open_refusal};
ghost use Rattle.graph.specs.Opening.{edges_in, edges_from, virtuals_from, fits, OpenCalled};
ghost use Rattle.open_graph.specs.inner.Refusals.{refusal_of_lengths, refusal_of_virtuals, refusal_of_edges};
ghost use Rattle.refusal.specs.Refusal.{refusal_number};

use crate::{given, opened};
use graph::sizes;
use refusal::Refusal;

// What refuses the edges alone.
fn edges_refusal(v: usize, e: usize, edges: &[i64]) -> Result<(), Refusal>
    requires { (e ≤ 4096) × (edges_in edges.now ≡ e) }
    ensures { refusal_number result ≡ refusal_of_edges v (edges_from edges.now) }
{
    if !given::edges_ok(v, e, edges) {
        return Err(Refusal::OutOfRange);
    }
    Ok(())
}

// What refuses the virtual vertices, and behind it.
fn virtuals_refusal(v: usize, e: usize, edges: &[i64], virtuals: &[i64]) -> Result<(), Refusal>
    requires { (e ≤ 4096) × (edges_in edges.now ≡ e) }
    ensures { refusal_number result ≡ refusal_of_virtuals v (edges_from edges.now) (virtuals_from virtuals.now) }
{
    if !given::virtuals_ok(v, virtuals) {
        return Err(Refusal::NoSuch);
    }
    edges_refusal(v, e, edges)
}

// Whether block and scratch have exactly the lengths of the sizes.
fn lengths_fit(b: &[i64], t: &[i64], v: usize, e: usize, n: usize, l: usize) -> bool
    requires { sizes_ok v e n l ≡ true }
    ensures { result ≡ fits b.now t.now v e n l }
{
    (b.len() == sizes::block_length(v, e, n, l)) & (t.len() == sizes::scratch_length(v, e))
}

// What refuses the lengths, and behind it.
fn lengths_refusal(
    b: &[i64],
    t: &[i64],
    v: usize,
    e: usize,
    n: usize,
    l: usize,
    edges: &[i64],
    virtuals: &[i64],
) -> Result<(), Refusal>
    requires { (sizes_ok v e n l ≡ true) × (edges_in edges.now ≡ e) }
    ensures { refusal_number result
        ≡ refusal_of_lengths v (edges_from edges.now) (virtuals_from virtuals.now)
        (fits b.now t.now v e n l) }
{
    if !lengths_fit(b, t, v, e, n, l) {
        return Err(Refusal::WrongLength);
    }
    virtuals_refusal(v, e, edges, virtuals)
}

// What refuses the opening.
fn refusal(
    b: &[i64],
    t: &[i64],
    v: usize,
    e: usize,
    n: usize,
    l: usize,
    edges: &[i64],
    virtuals: &[i64],
) -> Result<(), Refusal>
    ensures { refusal_number result
        ≡ open_refusal v e n l (edges_from edges.now) (virtuals_from virtuals.now)
        (fits b.now t.now v e n l) }
{
    if !(sizes::sizes_ok(v, e, n, l) & (given::edges_in(edges) == e)) {
        return Err(Refusal::OutOfRange);
    }
    lengths_refusal(b, t, v, e, n, l, edges, virtuals)
}

// A graph is opened in the block b. Refused, the block is as it was. The scratch is only measured.
pub fn open(
    b: &mut [i64],
    t: &[i64],
    v: usize,
    e: usize,
    n: usize,
    l: usize,
    edges: &[i64],
    virtuals: &[i64],
) -> Result<(), Refusal>
    ensures { OpenCalled b.old t.now v e n l edges.now virtuals.now b.new (refusal_number result) }
{
    refusal(b, t, v, e, n, l, edges, virtuals)?;
    opened::write(b, v, e, n, l, edges, virtuals);
    Ok(())
}
