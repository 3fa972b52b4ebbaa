// A vertex goes from a node: it is freed with all its sides, and sides across are kept.

ghost use Rattle.std.specs.Prelude.{◌≡◌, ◌<◌};
ghost use Rattle.graph.specs.Basic.{fold};
ghost use Rattle.graph.specs.State.{vertex_count, side_count, node_count, sides_at};
ghost use Rattle.graph.specs.Layout.{state_of};
ghost use Rattle.graph.specs.Form.{Formed};
ghost use Rattle.pass.specs.Shrink.{closed, drop_side, drop_step};
ghost use Rattle.pass.specs.inner.Once.{release_once};
ghost use Rattle.shrink_pass.specs.inner.Shrinking.{ShrinkWorking, ShrinkWorked, part_side, part_vertex};

use crate::keep;
use crate::keep::ShrinkProgress;
use graph::{edge, side, sides, vertex};
use pass::another;

// Whether node n holds both sides of the edge of side s, and the edge is full.
fn closed(b: &[i64], n: usize, s: usize) -> bool
    requires { Formed b.now × (n < node_count (state_of b.now)) × (s < side_count (state_of b.now)) }
    ensures { result ≡ closed n (state_of b.now) s }
{
    let o = side::opposite(s);
    let near = side::holder(b, s) == n + 1;
    let far = side::holder(b, o) == n + 1;
    let grown = side::growth(b, s) + side::growth(b, o);
    near & far & (edge::weight(b, s / 2) <= grown)
}

// Side s is freed, the side across is kept once, and an edge of weight 0 calls for another pass.
fn drop_side(b: &mut [i64], t: &mut [i64], m: usize, p: ShrinkProgress, s: usize) -> ShrinkProgress
    requires { ShrinkWorking b.old t.old m p × (s < m) }
    ensures { ShrinkWorked b.old t.old b.new t.new m p result (λ w. drop_side w s) }
{
    let o = side::opposite(s);
    let empty = edge::weight(b, s / 2) == 0;
    side::free(b, s);
    let q = keep::keep_once(t, m, p, o);
    ShrinkProgress {
        another: another::called_if(empty, q.another),
        ..q
    }
}

// Side s of a vertex that goes: taken off the overgrown stack, if `off`, or released.
fn part_side(
    b: &mut [i64],
    t: &mut [i64],
    n: usize,
    m: usize,
    p: ShrinkProgress,
    s: usize,
    off: bool,
) -> ShrinkProgress
    requires { ShrinkWorking b.old t.old m p × (n < node_count (state_of b.old)) × (s < m) }
    ensures { ShrinkWorked b.old t.old b.new t.new m p result (λ w. part_side off n w s) }
{
    if off | closed(b, n, s) {
        drop_side(b, t, m, p, s)
    } else {
        side::free(b, s);
        p
    }
}

// All sides at vertex v.
fn part_sides(
    b: &mut [i64],
    t: &mut [i64],
    n: usize,
    v: usize,
    m: usize,
    p: ShrinkProgress,
    off: bool,
) -> ShrinkProgress
    requires { ShrinkWorking b.old t.old m p × (n < node_count (state_of b.old)) × (v < vertex_count (state_of b.old)) }
    ensures { ShrinkWorked b.old t.old b.new t.new m p result
        (λ w. fold (part_side off n) w (sides_at (state_of b.old) v)) }
{
    let l = sides::sides_len(b, v);
    let mut q = p;
    for i in 0..l {
        let s = sides::vertex_side(b, v, i);
        q = part_side(b, t, n, m, q, s, off);
    }
    q
}

// Vertex v goes, with its sides.
fn part_vertex(
    b: &mut [i64],
    t: &mut [i64],
    n: usize,
    v: usize,
    m: usize,
    p: ShrinkProgress,
    off: bool,
) -> ShrinkProgress
    requires { ShrinkWorking b.old t.old m p × (n < node_count (state_of b.old)) × (v < vertex_count (state_of b.old)) }
    ensures { ShrinkWorked b.old t.old b.new t.new m p result (λ w. part_vertex off n w v) }
{
    vertex::free(b, v);
    part_sides(b, t, n, v, m, p, off)
}

// An overgrown vertex v is taken off: if node n holds it, it goes.
pub fn drop_vertex(
    b: &mut [i64],
    t: &mut [i64],
    n: usize,
    m: usize,
    p: ShrinkProgress,
    v: usize,
) -> ShrinkProgress
    requires { ShrinkWorking b.old t.old m p × (n < node_count (state_of b.old)) × (v < vertex_count (state_of b.old)) }
    ensures { ShrinkWorked b.old t.old b.new t.new m p result (λ w. drop_step n w v) }
{
    if vertex::holder(b, v) == n + 1 {
        part_vertex(b, t, n, v, m, p, true)
    } else {
        p
    }
}

// A noted vertex v is released.
pub fn release_vertex(
    b: &mut [i64],
    t: &mut [i64],
    n: usize,
    m: usize,
    p: ShrinkProgress,
    v: usize,
) -> ShrinkProgress
    requires { ShrinkWorking b.old t.old m p × (n < node_count (state_of b.old)) × (v < vertex_count (state_of b.old)) }
    ensures { ShrinkWorked b.old t.old b.new t.new m p result (λ w. release_once n w v) }
{
    part_vertex(b, t, n, v, m, p, false)
}
