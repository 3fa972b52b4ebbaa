// The soundness test of the nodes.

ghost use Rattle.std.specs.Prelude.{◌≡◌, ◌+◌, ◌<◌};
ghost use Rattle.graph.specs.Basic.{all_below};
ghost use Rattle.graph.specs.State.{node_count, class_of};
ghost use Rattle.graph.specs.Sound.{class_sound, parent_sound, node_sound};
ghost use Rattle.graph.specs.Layout.{state_of};
ghost use Rattle.graph.specs.Form.{Laid, Listed};
ghost use Rattle.graph.specs.Rows.{store_row};
ghost use Rattle.graph.specs.inner.Scans.{node_numbers};
ghost use Rattle.block_rows.specs.inner.Rows.{RowPart};
ghost use Rattle.node_tests.specs.inner.Marks.{Marks};

use crate::{node_lists, own_lists};
use block_rows::parts;
use graph::dual_node::DualNode;
use graph::{node, rows};

// ---- the numbers

// Whether the class of node n is a vertex, a removed blossom, or one whose first member is a node below n.
fn class_sound(b: &[i64], n: usize) -> bool
    requires { Laid b.now × (n < node_count (state_of b.now)) }
    ensures { result ≡ class_sound (state_of b.now) n (class_of (state_of b.now) n) }
{
    let v = rows::vertex_count(b);
    let x = rows::node_word(b, rows::CLASS, n);
    if x < v {
        return true;
    }
    if x == v + node::REMOVED {
        true
    } else {
        x - v < n
    }
}

// Whether the parent of node n is none, or a node above n.
fn parent_sound(b: &[i64], n: usize) -> bool
    requires { Laid b.now × (n < node_count (state_of b.now)) }
    ensures { result ≡ parent_sound (state_of b.now) n }
{
    let c = rows::node_count(b);
    let p = rows::node_word(b, rows::PARENT, n);
    (p == 0) | ((n + 1 < p) & (p <= c))
}

// Whether the numbers of node n are in range.
fn node_numbers(b: &[i64], n: usize) -> bool
    requires { Laid b.now × (n < node_count (state_of b.now)) }
    ensures { result ≡ node_numbers (state_of b.now) n }
{
    let s = rows::node_word(b, rows::GROW_STATE, n);
    let d = rows::node_word(b, rows::DUAL, n);
    class_sound(b, n) & (s <= 2) & parent_sound(b, n) & (d <= DualNode::MAX_DUAL)
}

// ---- numbers and lists

// Whether node n is sound; what its lists hold is marked if it is an outermost node.
fn node_sound(b: &[i64], store: &[i64], n: usize, sides: &mut [u8], vertices: &mut [u8]) -> bool
    requires { Laid b.now × Listed b.now × (n < node_count (state_of b.now))
        × RowPart b.now store_row (state_of b.now).store_limit store.now × Marks (state_of b.now) n sides.old vertices.old }
    ensures { (result ≡ node_sound (state_of b.now) n) × Marks (state_of b.now) (n + 1) sides.new vertices.new }
{
    if node_numbers(b, n) {
        if rows::node_word(b, rows::PARENT, n) == 0 {
            own_lists::own_lists(b, store, n, sides, vertices)
        } else {
            node_lists::lists_sound(b, store, n)
        }
    } else {
        false
    }
}

// Whether all nodes are sound.
pub fn nodes_sound(b: &[i64]) -> bool
    requires { Laid b.now × Listed b.now }
    ensures { result ≡ all_below (node_sound (state_of b.now)) (node_count (state_of b.now)) }
{
    let c = rows::node_count(b);
    let store = parts::store_row(b);
    let mut sides = [0u8; 8192];
    let mut vertices = [0u8; 1024];
    for n in 0..c {
        if !node_sound(b, store, n, &mut sides, &mut vertices) {
            return false;
        }
    }
    true
}
