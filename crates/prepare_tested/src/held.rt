// Whether a node holds what it lists.

ghost use Rattle.std.specs.Prelude.{◌≡◌, ◌+◌, ◌<◌, eqb};
ghost use Rattle.graph.specs.Basic.{all};
ghost use Rattle.graph.specs.State.{Overgrown, node_count, holder_at, vertex_holder_at, boundary_of, overgrown_of};
ghost use Rattle.graph.specs.Layout.{state_of};
ghost use Rattle.graph.specs.Form.{Formed};
ghost use Rattle.pass.specs.KeepsSound.{holds_lists};
ghost use Rattle.pass.specs.inner.Ready.{Shrinkable};

use graph::{lists, side, vertex, words};

// Whether node n holds every side that it lists.
fn holds_sides(b: &[i64], n: usize) -> bool
    requires { Formed b.now × (n < node_count (state_of b.now)) × Shrinkable (state_of b.now) n }
    ensures { result ≡ all (λ s. eqb (holder_at (state_of b.now) s) (n + 1)) (boundary_of (state_of b.now) n) }
{
    lists::boundary(b, n)
        .iter()
        .all(|s| side::holder(b, words::to_nat(*s)) == n + 1)
}

// Whether it holds every vertex of its overgrown stack.
fn holds_stack(b: &[i64], n: usize) -> bool
    requires { Formed b.now × (n < node_count (state_of b.now)) × Shrinkable (state_of b.now) n }
    ensures { result ≡ all (λ (o : Overgrown). eqb (vertex_holder_at (state_of b.now) o.vertex) (n + 1))
        (overgrown_of (state_of b.now) n) }
{
    let l = lists::overgrown_len(b, n);
    for i in 0..l {
        let v = lists::overgrown_vertex(b, n, i);
        if vertex::holder(b, v) != n + 1 {
            return false;
        }
    }
    true
}

// Whether node n holds what it lists.
pub fn holds_lists(b: &[i64], n: usize) -> bool
    requires { Formed b.now × (n < node_count (state_of b.now)) × Shrinkable (state_of b.now) n }
    ensures { result ≡ holds_lists (state_of b.now) n }
{
    let sides = holds_sides(b, n);
    let stack = holds_stack(b, n);
    sides & stack
}
