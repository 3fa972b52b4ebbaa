// The test of removed blossoms: none has anything, and nothing is held by one or lies in one.

ghost use Rattle.std.specs.Prelude.{◌≡◌, true, false, ◌<◌, ◌≤◌};
ghost use Rattle.graph.specs.Basic.{all_below};
ghost use Rattle.graph.specs.State.{vertex_count, side_count, node_count, holder_at, vertex_holder_at, class_of};
ghost use Rattle.graph.specs.Sound.{sound, is_removed, live_or_none, emptied, first_live, node_live, sound_removed};
ghost use Rattle.graph.specs.Layout.{state_of};
ghost use Rattle.graph.specs.Form.{Formed};
ghost use Rattle.graph.specs.inner.Scans.{live};

use graph::{lists, node, rows, side, vertex};

// Whether no node is removed.
fn none_removed(b: &[i64]) -> bool
    requires { Formed b.now }
    ensures { result ≡ all_below (live (state_of b.now)) (node_count (state_of b.now)) }
{
    let c = rows::node_count(b);
    for n in 0..c {
        if node::is_removed(b, n) {
            return false;
        }
    }
    true
}

// Whether x is none, or stored for a node that is not removed.
fn live_or_none(b: &[i64], x: usize) -> bool
    requires { Formed b.now × (x ≤ node_count (state_of b.now)) }
    ensures { result ≡ live_or_none (state_of b.now) x }
{
    if x == 0 {
        true
    } else {
        !node::is_removed(b, x - 1)
    }
}

// Whether node n has no parent, rests, and has empty lists.
fn emptied(b: &[i64], n: usize) -> bool
    requires { Formed b.now × (n < node_count (state_of b.now)) }
    ensures { result ≡ emptied (state_of b.now) n }
{
    let k = lists::boundary_len(b, n) + lists::overgrown_len(b, n);
    (node::parent(b, n) == 0) & (node::grow_state(b, n) == node::STAY) & (k == 0)
}

// Whether node n, which is not removed, has no removed first member.
fn first_live(b: &[i64], n: usize) -> bool
    requires { Formed b.now × (sound (state_of b.now) ≡ true) × (n < node_count (state_of b.now)) × (is_removed (class_of (state_of b.now) n) ≡ false) }
    ensures { result ≡ first_live (state_of b.now) (class_of (state_of b.now) n) }
{
    let v = rows::vertex_count(b);
    let x = node::class(b, n);
    if x < v {
        true
    } else {
        !node::is_removed(b, x - v)
    }
}

// Whether node n is removed and has nothing, or lies in no removed node and has no removed first member.
fn node_live(b: &[i64], n: usize) -> bool
    requires { Formed b.now × (sound (state_of b.now) ≡ true) × (n < node_count (state_of b.now)) }
    ensures { result ≡ node_live (state_of b.now) n }
{
    if node::is_removed(b, n) {
        emptied(b, n)
    } else {
        let p = node::parent(b, n);
        live_or_none(b, p) & first_live(b, n)
    }
}

// Whether this is so of all nodes.
fn nodes_live(b: &[i64]) -> bool
    requires { Formed b.now × (sound (state_of b.now) ≡ true) }
    ensures { result ≡ all_below (node_live (state_of b.now)) (node_count (state_of b.now)) }
{
    let c = rows::node_count(b);
    for n in 0..c {
        if !node_live(b, n) {
            return false;
        }
    }
    true
}

// Whether no vertex is held by a removed node.
fn vertices_live(b: &[i64]) -> bool
    requires { Formed b.now × (sound (state_of b.now) ≡ true) }
    ensures { result
        ≡ all_below (λ v. live_or_none (state_of b.now) (vertex_holder_at (state_of b.now) v))
        (vertex_count (state_of b.now)) }
{
    let c = rows::vertex_count(b);
    for v in 0..c {
        if !live_or_none(b, vertex::holder(b, v)) {
            return false;
        }
    }
    true
}

// Whether no side is held by a removed node.
fn sides_live(b: &[i64]) -> bool
    requires { Formed b.now × (sound (state_of b.now) ≡ true) }
    ensures { result
        ≡ all_below (λ s. live_or_none (state_of b.now) (holder_at (state_of b.now) s))
        (side_count (state_of b.now)) }
{
    let c = rows::side_count(b);
    for s in 0..c {
        if !live_or_none(b, side::holder(b, s)) {
            return false;
        }
    }
    true
}

// Whether no removed node holds or contains anything. Where no node is removed nothing else is read.
pub fn removed_sound(b: &[i64]) -> bool
    requires { Formed b.now × (sound (state_of b.now) ≡ true) }
    ensures { result ≡ sound_removed (state_of b.now) }
{
    if none_removed(b) {
        true
    } else {
        nodes_live(b) & vertices_live(b) & sides_live(b)
    }
}
