// Whether a shrinking pass will free only what the node holds: read off the block before it.

ghost use Rattle.std.specs.Prelude.{◌≡◌, ◌<◌};
ghost use Rattle.graph.specs.Basic.{all};
ghost use Rattle.graph.specs.State.{vertex_count, side_count, node_count, sides_at, boundary_of, overgrown_of};
ghost use Rattle.graph.specs.Layout.{state_of};
ghost use Rattle.graph.specs.Form.{Formed};
ghost use Rattle.pass.specs.Shrink.{empty_tops};
ghost use Rattle.pass.specs.KeepsSound.{own_side, may_go, side_may_go, pass_own};
ghost use Rattle.pass.specs.inner.Ready.{Shrinkable};

use graph::{lists, side, sides, vertex, words};
use shrink_pass::{shrink, tops};

// Whether side s is free, or node n holds it.
fn own_side(b: &[i64], n: usize, s: usize) -> bool
    requires { Formed b.now × (n < node_count (state_of b.now)) × (s < side_count (state_of b.now)) }
    ensures { result ≡ own_side n (state_of b.now) s }
{
    let h = side::holder(b, s);
    (h == 0) | (h == n + 1)
}

// Whether that is so of every side at vertex v.
fn own_sides(b: &[i64], n: usize, v: usize) -> bool
    requires { Formed b.now × (n < node_count (state_of b.now)) × (v < vertex_count (state_of b.now)) }
    ensures { result ≡ all (own_side n (state_of b.now)) (sides_at (state_of b.now) v) }
{
    let l = sides::sides_len(b, v);
    for i in 0..l {
        let s = sides::vertex_side(b, v, i);
        if !own_side(b, n, s) {
            return false;
        }
    }
    true
}

// Whether vertex v may go from node n: it is free, or the node's own with its sides.
fn may_go(b: &[i64], n: usize, v: usize) -> bool
    requires { Formed b.now × (n < node_count (state_of b.now)) × (v < vertex_count (state_of b.now)) }
    ensures { result ≡ may_go n (state_of b.now) v }
{
    let h = vertex::holder(b, v);
    if h == 0 {
        return true;
    }
    if h == n + 1 {
        own_sides(b, n, v)
    } else {
        false
    }
}

// Whether boundary side s has growth or stands at a defect, or its vertex may go.
fn side_may_go(b: &[i64], n: usize, s: usize) -> bool
    requires { Formed b.now × (n < node_count (state_of b.now)) × (s < side_count (state_of b.now)) }
    ensures { result ≡ side_may_go n (state_of b.now) s }
{
    if shrink::emptied(b, s) {
        let v = side::end(b, s);
        may_go(b, n, v)
    } else {
        true
    }
}

// Whether that is so of every boundary side of node n.
fn sides_may_go(b: &[i64], n: usize) -> bool
    requires { Formed b.now × (n < node_count (state_of b.now)) × Shrinkable (state_of b.now) n }
    ensures { result ≡ all (side_may_go n (state_of b.now)) (boundary_of (state_of b.now) n) }
{
    lists::boundary(b, n)
        .iter()
        .all(|s| side_may_go(b, n, words::to_nat(*s)))
}

// Whether every empty top of node n's overgrown stack may go.
fn tops_may_go(b: &[i64], n: usize) -> bool
    requires { Formed b.now × (n < node_count (state_of b.now)) × Shrinkable (state_of b.now) n }
    ensures { result ≡ all (may_go n (state_of b.now)) (empty_tops (overgrown_of (state_of b.now) n)) }
{
    let l = tops::empty_tops(b, n);
    for i in 0..l {
        let v = lists::overgrown_vertex(b, n, i);
        if !may_go(b, n, v) {
            return false;
        }
    }
    true
}

// Whether a shrinking pass over node n will free only what the node holds.
pub fn pass_own(b: &[i64], n: usize) -> bool
    requires { Formed b.now × (n < node_count (state_of b.now)) × Shrinkable (state_of b.now) n }
    ensures { result ≡ pass_own (state_of b.now) n }
{
    let tops = tops_may_go(b, n);
    let sides = sides_may_go(b, n);
    tops & sides
}
