#![tactic(auto)]

// The active list of a block: who stands in it, who joins it, and its renewal.

ghost use Rattle.std.specs.Prelude.{◌≡◌, true, [], ◌∷◌, ◌++◌, ◌<◌, ◌≤◌, length, get_or, set, take};
ghost use Rattle.graph.specs.Basic.{member};
ghost use Rattle.graph.specs.State.{node_count, with_active};
ghost use Rattle.graph.specs.Sound.{active_sound};
ghost use Rattle.graph.specs.Active.{join_active, activated, renewed};
ghost use Rattle.graph.specs.Layout.{state_of};
ghost use Rattle.graph.specs.Form.{Laid, Formed};
ghost use Rattle.graph.specs.inner.Form.{Becomes};
ghost use Rattle.active_list.specs.inner.Renewal.{kept_at, kept_count};
ghost use Rattle.graph.specs.Word.{word_limit};

use graph::{node, rows};
use store::clear;

// ---- its words

// Place i of the list gets the number x.
fn put_entry(b: &mut [i64], i: usize, x: usize)
    requires { Formed b.old × (i < length (state_of b.old).active) × (x < word_limit) }
    ensures { Becomes b.old b.new (with_active (state_of b.old) (set (state_of b.old).active i x)) }
{
    rows::put_active(b, i, x);
}

// The list ends behind its first j places.
fn cut(b: &mut [i64], j: usize)
    requires { Formed b.old × (j ≤ length (state_of b.old).active) }
    ensures { Becomes b.old b.new (with_active (state_of b.old) (take j (state_of b.old).active)) }
{
    clear::put_active_count(b, j);
}

// Node n goes behind the list, where there is room.
fn push(b: &mut [i64], n: usize)
    requires { Formed b.old × (length (state_of b.old).active < (state_of b.old).node_limit) × (n < word_limit) }
    ensures { Becomes b.old b.new (with_active (state_of b.old) ((state_of b.old).active ++ (n ∷ []))) }
{
    let k = rows::active_count(b);
    rows::put_active(b, k, n);
    clear::put_active_count(b, k + 1);
}

// ---- who joins

// Whether node n stands in the list.
fn stands_in(b: &[i64], n: usize) -> bool
    requires { Laid b.now }
    ensures { result ≡ member n (state_of b.now).active }
{
    for i in 0..rows::active_count(b) {
        if rows::active_node(b, i) == n {
            return true;
        }
    }
    false
}

// Node n joins the list, unless it stands there.
pub fn join(b: &mut [i64], n: usize)
    requires { Formed b.old × (active_sound (state_of b.old) ≡ true) × (n < node_count (state_of b.old)) }
    ensures { Becomes b.old b.new (join_active (state_of b.old) n) }
{
    if stands_in(b, n) {
        return;
    }
    push(b, n);
}

// Node n is to get the grow state x: it joins where it leaves Stay.
pub fn activate(b: &mut [i64], n: usize, x: usize)
    requires { Formed b.old × (active_sound (state_of b.old) ≡ true) × (n < node_count (state_of b.old)) }
    ensures { Becomes b.old b.new (activated (state_of b.old) n x) }
{
    if (node::grow_state(b, n) == node::STAY) & (x != node::STAY) {
        join(b, n);
    }
}

// ---- renewal

// Entry i is kept at place j where its node is not in Stay; how many are kept then.
fn keep(b: &mut [i64], i: usize, j: usize) -> usize
    requires { Formed b.old × (j ≤ i) × (i < length (state_of b.old).active) × (get_or (state_of b.old).active i 0 < node_count (state_of b.old)) }
    ensures { Becomes b.old b.new
        (with_active (state_of b.old) (kept_at (state_of b.old) i j))
        × (result ≡ kept_count (state_of b.old) i j) }
{
    let n = rows::active_node(b, i);
    if node::grow_state(b, n) == node::STAY {
        return j;
    }
    put_entry(b, j, n);
    j + 1
}

// The nodes in Stay leave the list.
pub fn renew(b: &mut [i64])
    requires { Formed b.old × (active_sound (state_of b.old) ≡ true) }
    ensures { Becomes b.old b.new (renewed (state_of b.old)) }
{
    let k = rows::active_count(b);
    let mut j = 0;
    for i in 0..k {
        j = keep(b, i, j);
    }
    cut(b, j);
}
