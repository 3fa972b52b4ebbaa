// What is stored of a node, apart from its lists.

ghost use Rattle.std.specs.Prelude.{◌≡◌, ◌<◌};
ghost use Rattle.graph.specs.State.{vertex_count, node_count, class_of, grow_state_of, parent_of, dual_of, with_class, with_grow_state, with_parent, with_dual, removed};
ghost use Rattle.graph.specs.Layout.{state_of, class_from};
ghost use Rattle.graph.specs.Sound.{is_removed};
ghost use Rattle.graph.specs.Form.{Laid, Formed};
ghost use Rattle.graph.specs.inner.Form.{Becomes};
ghost use Rattle.graph.specs.Word.{word_limit};

use crate::rows;

// V + this is the class word of a removed blossom: no node has that number.
pub const REMOVED: usize = 1024;

// Grow states.
pub const STAY: usize = 0;

pub const GROW: usize = 1;

pub const SHRINK: usize = 2;

// What node n stands for: a defect's vertex, V + the first member of a blossom, or V + REMOVED.
pub fn class(b: &[i64], n: usize) -> usize
    requires { Formed b.now × (n < node_count (state_of b.now)) }
    ensures { (class_from (vertex_count (state_of b.now)) result ≡ class_of (state_of b.now) n) × (result < word_limit) }
{
    rows::node_word(b, rows::CLASS, n)
}

// Whether node n is a removed blossom.
pub fn is_removed(b: &[i64], n: usize) -> bool
    requires { Laid b.now × (n < node_count (state_of b.now)) }
    ensures { result ≡ is_removed (class_of (state_of b.now) n) }
{
    let v = rows::vertex_count(b);
    let x = rows::node_word(b, rows::CLASS, n);
    x == v + REMOVED
}

// Node n becomes a removed blossom.
pub fn set_removed(b: &mut [i64], n: usize)
    requires { Formed b.old × (n < node_count (state_of b.old)) }
    ensures { Becomes b.old b.new (with_class (state_of b.old) n removed) }
{
    let v = rows::vertex_count(b);
    rows::put_node(b, rows::CLASS, n, v + REMOVED);
}

// The grow state of node n: 0 Stay, 1 Grow, 2 Shrink.
pub fn grow_state(b: &[i64], n: usize) -> usize
    requires { Formed b.now × (n < node_count (state_of b.now)) }
    ensures { (result ≡ grow_state_of (state_of b.now) n) × (result < word_limit) }
{
    rows::node_word(b, rows::GROW_STATE, n)
}

pub fn set_grow_state(b: &mut [i64], n: usize, x: usize)
    requires { Formed b.old × (n < node_count (state_of b.old)) × (x < word_limit) }
    ensures { Becomes b.old b.new (with_grow_state (state_of b.old) n x) }
{
    rows::put_node(b, rows::GROW_STATE, n, x);
}

// The blossom that node n lies in, or none.
pub fn parent(b: &[i64], n: usize) -> usize
    requires { Formed b.now × (n < node_count (state_of b.now)) }
    ensures { (result ≡ parent_of (state_of b.now) n) × (result < word_limit) }
{
    rows::node_word(b, rows::PARENT, n)
}

pub fn set_parent(b: &mut [i64], n: usize, x: usize)
    requires { Formed b.old × (n < node_count (state_of b.old)) × (x < word_limit) }
    ensures { Becomes b.old b.new (with_parent (state_of b.old) n x) }
{
    rows::put_node(b, rows::PARENT, n, x);
}

// The dual variable of node n.
pub fn dual(b: &[i64], n: usize) -> usize
    requires { Formed b.now × (n < node_count (state_of b.now)) }
    ensures { (result ≡ dual_of (state_of b.now) n) × (result < word_limit) }
{
    rows::node_word(b, rows::DUAL, n)
}

pub fn set_dual(b: &mut [i64], n: usize, x: usize)
    requires { Formed b.old × (n < node_count (state_of b.old)) × (x < word_limit) }
    ensures { Becomes b.old b.new (with_dual (state_of b.old) n x) }
{
    rows::put_node(b, rows::DUAL, n, x);
}
