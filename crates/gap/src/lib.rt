#![tactic(auto)]

// The gap of an edge: inner, over or left.

ghost use Rattle.std.specs.Prelude.{◌≡◌, ◌<◌};
ghost use Rattle.graph.specs.State.{edge_count};
ghost use Rattle.graph.specs.Layout.{state_of};
ghost use Rattle.graph.specs.Form.{Formed};
ghost use Rattle.gap.specs.Gap.{is_inner, edge_gap};

use graph::{edge, side};

// What is left of an edge.
#[derive(Clone, Copy)]
pub enum Gap {
    Inner, // one node holds both sides
    Over(usize), // the growths exceed the weight by this
    Left(usize), // the weight less the growths
}

// Whether one node holds both sides of edge e.
fn is_inner(b: &[i64], e: usize) -> bool
    requires { Formed b.now × (e < edge_count (state_of b.now)) }
    ensures { result ≡ is_inner (state_of b.now) e }
{
    let h = side::holder(b, 2 * e);
    let k = side::holder(b, 2 * e + 1);
    (h != 0) & (h == k)
}

// The gap of edge e.
pub fn edge_gap(b: &[i64], e: usize) -> Gap
    requires { Formed b.now × (e < edge_count (state_of b.now)) }
    ensures { result ≡ edge_gap (state_of b.now) e }
{
    if is_inner(b, e) {
        return Gap::Inner;
    }
    let w = edge::weight(b, e);
    let g = side::growth(b, 2 * e) + side::growth(b, 2 * e + 1);
    if w < g {
        Gap::Over(g - w)
    } else {
        Gap::Left(w - g)
    }
}
