// The opened state: the blossom's sides lose their holder, the members hold theirs again and lie in nothing, and the
// blossom stands for nothing.

ghost use Rattle.std.specs.Prelude.{◌<◌, if◌then◌else◌};
ghost use Rattle.graph.specs.Basic.{fold};
ghost use Rattle.graph.specs.State.{node_count, boundary_of};
ghost use Rattle.graph.specs.Layout.{state_of};
ghost use Rattle.graph.specs.Form.{Formed};
ghost use Rattle.graph.specs.inner.Form.{Becomes};
ghost use Rattle.calls.specs.Remove.{members_of, member_step, removed_node, opened_blossom};
ghost use Rattle.remove.specs.inner.Stops.{SidesIn, is_member};
ghost use Rattle.remove.specs.inner.Opened.{set_holder};
ghost use Rattle.graph.specs.Word.{word_limit};

use graph::{lists, node, rows, side};
use store::replace;

// Every side in the boundary of node n gets the holder x.
fn set_holders(b: &mut [i64], n: usize, x: usize)
    requires { Formed b.old × SidesIn (state_of b.old) × (n < node_count (state_of b.old)) × (x < word_limit) }
    ensures { Becomes b.old b.new (fold (set_holder x) (state_of b.old) (boundary_of (state_of b.old) n)) }
{
    let l = lists::boundary_len(b, n);
    for i in 0..l {
        let s = lists::boundary_side(b, n, i);
        side::set_holder(b, s, x);
    }
}

// Member m holds its sides again and lies in nothing.
fn return_member(b: &mut [i64], m: usize)
    requires { Formed b.old × SidesIn (state_of b.old) × (m < node_count (state_of b.old)) }
    ensures { Becomes b.old b.new (member_step (state_of b.old) m) }
{
    set_holders(b, m, m + 1);
    node::set_parent(b, m, 0);
}

// The same of node m, where it lies in n.
fn return_node(b: &mut [i64], n: usize, m: usize)
    requires { Formed b.old × SidesIn (state_of b.old) × (m < node_count (state_of b.old)) × (n < 1024) }
    ensures { Becomes b.old b.new
        (if is_member (state_of b.old) n m then member_step (state_of b.old) m
        else state_of b.old) }
{
    if node::parent(b, m) == n + 1 {
        return_member(b, m);
    }
}

// The same of all nodes.
fn return_members(b: &mut [i64], n: usize)
    requires { Formed b.old × SidesIn (state_of b.old) × (n < 1024) }
    ensures { Becomes b.old b.new (fold member_step (state_of b.old) (members_of (state_of b.old) n)) }
{
    let c = rows::node_count(b);
    for m in 0..c {
        return_node(b, n, m);
    }
}

// Node n stands for nothing. Nothing of t is read.
fn remove_node(b: &mut [i64], t: &[i64], n: usize)
    requires { Formed b.old × (n < node_count (state_of b.old)) }
    ensures { Becomes b.old b.new (removed_node (state_of b.old) n) }
{
    node::set_removed(b, n);
    node::set_grow_state(b, n, node::STAY);
    replace::replace_lists(b, n, t, 0, 0, 0, 0);
}

// Blossom n is opened.
pub fn open(b: &mut [i64], t: &[i64], n: usize)
    requires { Formed b.old × SidesIn (state_of b.old) × (n < node_count (state_of b.old)) }
    ensures { Becomes b.old b.new (opened_blossom (state_of b.old) n) }
{
    set_holders(b, n, 0);
    return_members(b, n);
    remove_node(b, t, n);
}
