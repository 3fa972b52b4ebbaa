// Opening a graph from a sheet: the refusals, and the call.

ghost use Rattle.std.specs.Prelude.{◌≡◌, true, ◌&&◌, ◌*◌, ◌<◌, ◌≤◌, eqb, length};
ghost use Rattle.graph.specs.Basic.{all};
ghost use Rattle.graph.specs.Open.{sizes_ok};
ghost use Rattle.graph.specs.Opening.{edge_at, edges_in, edges_from, fits};
ghost use Rattle.refusal.specs.Refusal.{refusal_number};
ghost use Rattle.sheet.specs.Outcome.{opened_told};
ghost use Rattle.sheet.specs.Called.{ends_ok, sheet_refusal, SheetCalled};

use crate::{values, weights};
use graph::sizes;
use open_graph::{given, open};
use refusal::Refusal;

// Whether edge i has two ends that differ, both vertices.
fn end_ok(v: usize, edges: &[i64], i: usize) -> bool
    requires { i < 4096 }
    ensures { result ≡ ends_ok v (edge_at edges.now i) }
{
    let x = given::given(edges, 3 * i);
    let y = given::given(edges, 3 * i + 1);
    (x < v) & (y < v) & (x != y)
}

// Whether every edge is so.
fn ends_ok(v: usize, e: usize, edges: &[i64]) -> bool
    requires { (e ≤ 4096) × (edges_in edges.now ≡ e) }
    ensures { result ≡ all (ends_ok v) (edges_from edges.now) }
{
    for i in 0..e {
        if !end_ok(v, edges, i) {
            return false;
        }
    }
    true
}

// Whether block, scratch and sheet have exactly the lengths of the sizes.
fn lengths_fit(b: &[i64], t: &[i64], v: usize, e: usize, n: usize, l: usize, sheet: &[i64]) -> bool
    requires { sizes_ok v e n l ≡ true }
    ensures { result ≡ fits b.now t.now v e n l && eqb (length sheet.now) e }
{
    (b.len() == sizes::block_length(v, e, n, l))
        & (t.len() == sizes::scratch_length(v, e))
        & (sheet.len() == e)
}

// What refuses the opening.
fn refusal(
    b: &[i64],
    t: &[i64],
    v: usize,
    e: usize,
    n: usize,
    l: usize,
    edges: &[i64],
    sheet: &[i64],
    virtuals: &[i64],
) -> Result<(), Refusal>
    ensures { refusal_number result ≡ sheet_refusal v e n l edges.now sheet.now virtuals.now
        (fits b.now t.now v e n l) }
{
    if !(sizes::sizes_ok(v, e, n, l) & (given::edges_in(edges) == e)) {
        return Err(Refusal::OutOfRange);
    }
    if !lengths_fit(b, t, v, e, n, l, sheet) {
        return Err(Refusal::WrongLength);
    }
    if !given::virtuals_ok(v, virtuals) {
        return Err(Refusal::NoSuch);
    }
    if !((edges.len() == 3 * e) & ends_ok(v, e, edges)) {
        return Err(Refusal::OutOfRange);
    }
    if !values::sheet_ok(sheet) {
        return Err(Refusal::NoValue);
    }
    Ok(())
}

// A graph is opened in the block b with the weights of the sheet, which are written into the edges: how many positive values became 0.
// Refused, block and edges are as they were. The scratch is only measured.
pub fn open_sheet(
    b: &mut [i64],
    t: &[i64],
    v: usize,
    e: usize,
    n: usize,
    l: usize,
    edges: &mut [i64],
    sheet: &[i64],
    virtuals: &[i64],
) -> Result<usize, Refusal>
    ensures { SheetCalled b.old t.now v e n l edges.old sheet.now virtuals.now
        edges.new b.new (opened_told result) }
{
    refusal(b, t, v, e, n, l, edges, sheet, virtuals)?;
    weights::weigh(edges, sheet);
    open::open(b, t, v, e, n, l, edges, virtuals)?;
    Ok(weights::vanished(sheet))
}
