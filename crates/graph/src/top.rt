// The top of a node's overgrown stack, and a node as a value.

ghost use Rattle.std.specs.Prelude.{◌≡◌, ◌<◌, length};
ghost use Rattle.graph.specs.State.{node_count, overgrown_of, with_overgrown};
ghost use Rattle.graph.specs.Layout.{state_of};
ghost use Rattle.graph.specs.Form.{Formed};
ghost use Rattle.graph.specs.inner.Form.{Becomes};
ghost use Rattle.graph.specs.Node.{with_top, top_amount, node_at};

use crate::dual_node::DualNode;
use crate::{lists, node, rows};

// The top amount of node n becomes x.
pub fn set_amount(b: &mut [i64], n: usize, x: usize)
    requires { Formed b.old × (n < node_count (state_of b.old)) × (0 < length (overgrown_of (state_of b.old) n)) × (x < 9007199254740992) }
    ensures { Becomes b.old b.new
        (with_overgrown (state_of b.old) n (with_top x (overgrown_of (state_of b.old) n))) }
{
    let a = lists::start(b, n);
    let k = lists::boundary_len(b, n);
    let o = lists::overgrown_len(b, n);
    let p = a + k + (o - 1);
    let w = rows::store_word(b, p);
    rows::put_store(b, p, x * 1024 + w % 1024);
}

// The top amount of node n, 0 without any.
pub fn amount(b: &[i64], n: usize) -> usize
    requires { Formed b.now × (n < node_count (state_of b.now)) }
    ensures { (result ≡ top_amount (overgrown_of (state_of b.now) n)) × (result < 9007199254740992) }
{
    if lists::overgrown_len(b, n) == 0 {
        0
    } else {
        lists::overgrown_amount(b, n, 0)
    }
}

// Node n as a value.
pub fn node(b: &[i64], n: usize) -> DualNode
    requires { Formed b.now × (n < node_count (state_of b.now)) }
    ensures { (result ≡ node_at (state_of b.now) n) × (result.top < 9007199254740992) }
{
    DualNode {
        class: node::class(b, n),
        state: node::grow_state(b, n),
        parent: node::parent(b, n),
        dual: node::dual(b, n),
        overgrown: lists::overgrown_len(b, n),
        top: amount(b, n),
    }
}
