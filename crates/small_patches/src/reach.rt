// Whether each vertex of a patch reaches vertex 3, by marks that spread from it.

ghost use Rattle.std.specs.Prelude.{◌≡◌, ◌<◌, get_or, set};
ghost use Rattle.graph.specs.Basic.{fold, all_below};
ghost use Rattle.graph.specs.Opening.{edge_at, edges_in, edges_from};
ghost use Rattle.small_patches.specs.SmallPatch.{patch_at};
ghost use Rattle.small_patches.specs.Reach.{spread_to, spread_along, spread_over, times, has_mark, all_reach};

use crate::patch;
use open_graph::given;

// The mark of a vertex; 0 where there is no such vertex.
fn mark(m: &[usize], a: usize) -> usize
    ensures { result ≡ get_or m.now a 0 }
{
    if a < m.len() { m[a] } else { 0 }
}

// A vertex gets a mark; nothing is done where there is no such vertex.
fn put_mark(m: &mut [usize], b: usize)
    ensures { m.new ≡ set m.old b 1 }
{
    if b < m.len() {
        m[b] = 1;
    }
}

// Where vertex a has a mark, vertex b gets one.
fn spread_to(m: &mut [usize], a: usize, b: usize)
    ensures { m.new ≡ spread_to m.old a b }
{
    if 0 < mark(m, a) {
        put_mark(m, b);
    }
}

// Along edge i, both ways.
fn spread_along(m: &mut [usize], edges: &[i64], i: usize)
    requires { i < edges_in edges.now }
    ensures { m.new ≡ spread_along m.old (edge_at edges.now i) }
{
    let left = given::given(edges, 3 * i);
    let right = given::given(edges, 3 * i + 1);
    spread_to(m, left, right);
    spread_to(m, right, left);
}

// Along all edges in turn.
fn spread_once(m: &mut [usize], edges: &[i64])
    ensures { m.new ≡ fold spread_along m.old (edges_from edges.now) }
{
    for i in 0..given::edges_in(edges) {
        spread_along(m, edges, i);
    }
}

// Three times along all edges.
fn spread(m: &mut [usize], edges: &[i64])
    ensures { m.new ≡ spread_over (edges_from edges.now) times m.old }
{
    for _n in 0..3usize {
        spread_once(m, edges);
    }
}

// Whether all four vertices have a mark.
fn all_marked(m: &[usize]) -> bool
    ensures { result ≡ all_below (has_mark m.now) 4 }
{
    for a in 0..4 {
        if mark(m, a) == 0 {
            return false;
        }
    }
    true
}

// Whether each vertex reaches vertex 3 along these edges.
fn all_reach(edges: &[i64]) -> bool
    ensures { result ≡ all_reach (edges_from edges.now) }
{
    let mut m = [0usize, 0, 0, 1];
    spread(&mut m, edges);
    all_marked(&m)
}

// Whether each vertex of graph k reaches vertex 3.
pub fn each_reaches(k: usize) -> bool
    ensures { result ≡ all_reach (patch_at k) }
{
    let mut edges = [0i64; 18];
    let n = patch::patch(k, &mut edges);
    all_reach(&edges[0..3 * n])
}
