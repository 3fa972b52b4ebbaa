// One more node.

ghost use Rattle.std.specs.Prelude.{◌+◌, ◌<◌, ◌≤◌, length, [], ◌≡◌};
ghost use Rattle.graph.specs.State.{node_count, vertex_count, with_node};
ghost use Rattle.graph.specs.Sound.{entries};
ghost use Rattle.graph.specs.Word.{numbers_at, word_limit};
ghost use Rattle.graph.specs.Layout.{rows_of, state_of, class_from};
ghost use Rattle.graph.specs.Form.{Laid, Formed};
ghost use Rattle.graph.specs.Node.{new_node};
ghost use Rattle.graph.specs.inner.Insert.{Inserted, head_put, tail_put};
ghost use Rattle.store.specs.inner.Store.{Rewritten};

use crate::{clear, replace};
use graph::dual_node::DualNode;
use graph::{lists, rows};

// The numbers of node n are those of d.
fn put_head(b: &mut [i64], n: usize, d: DualNode)
    requires { Laid b.old × (n < (state_of b.old).node_limit) × (d.class < word_limit)
        × (d.state < word_limit) × (d.parent < word_limit) × (d.dual < word_limit) }
    ensures { Rewritten b.old b.new (head_put n d (rows_of b.old)) }
{
    rows::put_node(b, rows::CLASS, n, d.class);
    rows::put_node(b, rows::GROW_STATE, n, d.state);
    rows::put_node(b, rows::PARENT, n, d.parent);
    rows::put_node(b, rows::DUAL, n, d.dual);
}

// A new node: the empty one, standing for `class` in grow state x.
fn new_node(class: usize, x: usize) -> DualNode
    ensures { result ≡ new_node class x }
{
    let mut d = DualNode::empty();
    d.class = class;
    d.state = x;
    d
}

// Node n has no lists; they would start at a.
fn put_tail(b: &mut [i64], n: usize, a: usize)
    requires { Laid b.old × (n < (state_of b.old).node_limit) × (a ≤ 65536) }
    ensures { Rewritten b.old b.new (tail_put n a (rows_of b.old)) }
{
    rows::put_node(b, rows::START, n, a);
    rows::put_node(b, rows::BOUNDARY_LENGTH, n, 0);
    rows::put_node(b, rows::OVERGROWN_LENGTH, n, 0);
}

// The next node stands for `class`, in grow state x, in no blossom, of dual variable 0 and without lists.
fn push_empty(b: &mut [i64], class: usize, x: usize)
    requires { Formed b.old × (node_count (state_of b.old) < (state_of b.old).node_limit) × (class < word_limit) × (x < word_limit) }
    ensures { Inserted b.old b.new
        (with_node (state_of b.old) (class_from (vertex_count (state_of b.old)) class) x []) }
{
    let n = rows::node_count(b);
    let a = lists::entry_count(b);
    let d = new_node(class, x);
    put_head(b, n, d);
    put_tail(b, n, a);
    clear::put_node_count(b, n + 1);
}

// The next node stands for `class`, in grow state x, in no blossom, of dual variable 0; its boundary are the k sides that stand in t from 0 on.
pub fn push_node(b: &mut [i64], class: usize, x: usize, t: &[i64], k: usize)
    requires { Formed b.old × (node_count (state_of b.old) < (state_of b.old).node_limit) × (class < word_limit)
        × (x < word_limit) × (k ≤ length t.now)
        × (entries (state_of b.old) + k ≤ (state_of b.old).store_limit) }
    ensures { Inserted b.old b.new
        (with_node (state_of b.old) (class_from (vertex_count (state_of b.old)) class) x
        (numbers_at t.now 0 k)) }
{
    let n = rows::node_count(b);
    push_empty(b, class, x);
    replace::replace_lists(b, n, t, k, 0, 0, 0);
}
