// What one boundary side says to the length answer.

ghost use Rattle.std.specs.Prelude.{◌≡◌, ◌<◌, ◌-◌};
ghost use Rattle.graph.specs.State.{side_count, node_count};
ghost use Rattle.graph.specs.Layout.{state_of};
ghost use Rattle.graph.specs.Form.{Formed};
ghost use Rattle.update_length.specs.Scan.{gap_of, look_peer, look_free, look_held, look_grow, look_shrink, look};
ghost use Rattle.update_length.specs.inner.Length.{length_of, length_end, Shows};
ghost use Rattle.graph.specs.inner.Readable.{Readable};

use crate::lengths;
use crate::lengths::ZERO;
use answers::MaxUpdateLength;
use gap::Gap;
use graph::dual_node::UP;
use graph::{edge, node, side, vertex};
use refusal::Refusal;

// What one side says; what it meets is a length or a refusal where nothing else is said.
#[derive(Clone, Copy)]
pub enum Look<A = Result<MaxUpdateLength, Refusal>> {
    Skip,
    Room(usize), // a length that is left
    Meets(A),
}

// A stored node as its number.
pub fn less(x: usize) -> usize
    ensures { result ≡ x - 1 }
{
    if x == 0 { 0 } else { x - 1 }
}

// What is left of the edge of side s, less than nothing where it is overgrown.
fn difference(b: &[i64], s: usize) -> usize
    requires { Formed b.now × Readable (state_of b.now) × (s < side_count (state_of b.now)) }
    ensures { (length_of result ≡ gap_of (state_of b.now) s) × (result < length_end) }
{
    let o = side::opposite(s);
    let w = edge::weight(b, s / 2);
    let g = side::growth(b, s);
    let h = side::growth(b, o);
    ZERO + w - (g + h)
}

// The same, by the gap of the edge where it is not inner.
fn gap(b: &[i64], s: usize) -> usize
    requires { Formed b.now × Readable (state_of b.now) × (s < side_count (state_of b.now)) }
    ensures { (length_of result ≡ gap_of (state_of b.now) s) × (result < length_end) }
{
    match gap::edge_gap(b, s / 2) {
        Gap::Inner => difference(b, s),
        Gap::Over(x) => ZERO - x,
        Gap::Left(x) => ZERO + x,
    }
}

// A length l to the peer p that holds the far side.
fn look_peer(b: &[i64], n: usize, s: usize, p: usize, l: usize) -> Look
    requires { Formed b.now × (s < side_count (state_of b.now)) × (l < length_end) }
    ensures { Shows result (look_peer (state_of b.now) n s p (length_of l)) }
{
    if l == ZERO {
        let o = side::opposite(s);
        let g = less(side::grandson(b, o));
        let h = less(side::grandson(b, s));
        Look::Meets(Ok(MaxUpdateLength::Conflicting(p, g, n, h)))
    } else {
        Look::Room(l)
    }
}

// A length l to a far side that nobody holds.
fn look_free(b: &[i64], n: usize, s: usize, l: usize) -> Look
    requires { Formed b.now × (s < side_count (state_of b.now)) × (l < length_end) }
    ensures { Shows result (look_free (state_of b.now) n s (length_of l)) }
{
    if l == ZERO {
        let v = side::end(b, side::opposite(s));
        if vertex::virtual_flag(b, v) == 0 {
            Look::Meets(Err(Refusal::Unprepared))
        } else {
            let h = less(side::grandson(b, s));
            Look::Meets(Ok(MaxUpdateLength::TouchingVirtual(n, h, v)))
        }
    } else {
        Look::Room(l)
    }
}

// The far side is held by a peer p: a Shrink peer is skipped, a Grow peer takes half of what is left.
fn look_held(b: &[i64], n: usize, s: usize, p: usize) -> Look
    requires { Formed b.now × Readable (state_of b.now) × (s < side_count (state_of b.now)) × (p < node_count (state_of b.now)) }
    ensures { Shows result (look_held (state_of b.now) n s p) }
{
    let x = node::grow_state(b, p);
    if x == node::SHRINK {
        Look::Skip
    } else {
        let g = gap(b, s);
        if x == node::GROW {
            look_peer(b, n, s, p, lengths::half(g))
        } else {
            look_peer(b, n, s, p, g)
        }
    }
}

// A side of a node that grows.
fn look_grow(b: &[i64], n: usize, s: usize) -> Look
    requires { Formed b.now × Readable (state_of b.now) × (s < side_count (state_of b.now)) × (n < node_count (state_of b.now)) }
    ensures { Shows result (look_grow (state_of b.now) n s) }
{
    let h = side::holder(b, side::opposite(s));
    if h == n + 1 {
        Look::Skip
    } else {
        if h == 0 {
            let g = gap(b, s);
            look_free(b, n, s, g)
        } else {
            look_held(b, n, s, h - 1)
        }
    }
}

// A side of a node that shrinks.
fn look_shrink(b: &[i64], s: usize) -> Look
    requires { Formed b.now × Readable (state_of b.now) × (s < side_count (state_of b.now)) }
    ensures { Shows result (look_shrink (state_of b.now) s) }
{
    let g = side::growth(b, s);
    if g == 0 {
        Look::Meets(Err(Refusal::Unprepared))
    } else {
        Look::Room(ZERO + g)
    }
}

// Side s of node n in direction d.
pub fn look_side(b: &[i64], n: usize, d: usize, s: usize) -> Look
    requires { Formed b.now × Readable (state_of b.now) × (s < side_count (state_of b.now)) × (n < node_count (state_of b.now)) }
    ensures { Shows result (look (state_of b.now) n d s) }
{
    if d == UP {
        look_grow(b, n, s)
    } else {
        look_shrink(b, s)
    }
}
