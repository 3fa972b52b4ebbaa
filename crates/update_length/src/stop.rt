// A node of dual variable 0 shrinks no further: a defect with the Grow peers met at its vertex, or a blossom.

ghost use Rattle.std.specs.Prelude.{◌≡◌, ◌<◌};
ghost use Rattle.graph.specs.Basic.{fold};
ghost use Rattle.graph.specs.State.{vertex_count, side_count, node_count, sides_at, class_of};
ghost use Rattle.graph.specs.Layout.{state_of};
ghost use Rattle.graph.specs.Form.{Formed};
ghost use Rattle.update_length.specs.Scan.{no_peer, meets_peer, meet, stop_step, stop_with, stop_answer};
ghost use Rattle.update_length.specs.inner.Length.{peers_of};
ghost use Rattle.graph.specs.inner.Readable.{Readable};

use crate::look;
use answers::MaxUpdateLength;
use graph::{edge, node, rows, side, sides};

// The Grow peers met at a defect's vertex.
#[derive(Clone, Copy)]
pub enum Peers {
    NoPeer,
    Peer(usize, usize), // a node and its grandson
    TwoPeers(usize, usize, usize, usize), // two of them
}

// Whether side s has a full edge whose far side is held by a Grow node.
fn meets_peer(b: &[i64], s: usize) -> bool
    requires { Formed b.now × Readable (state_of b.now) × (s < side_count (state_of b.now)) }
    ensures { result ≡ meets_peer (state_of b.now) s }
{
    let o = side::opposite(s);
    let g = side::growth(b, s) + side::growth(b, o);
    if g == edge::weight(b, s / 2) {
        let h = side::holder(b, o);
        if h == 0 {
            false
        } else {
            node::grow_state(b, h - 1) == node::GROW
        }
    } else {
        false
    }
}

// The peer p with its grandson g is met, after r.
fn meet(r: Peers, p: usize, g: usize) -> Peers
    ensures { peers_of result ≡ meet (peers_of r) p g }
{
    match r {
        Peers::NoPeer => Peers::Peer(p, g),
        Peers::Peer(q, h) => if p == q {
            Peers::Peer(q, h)
        } else {
            Peers::TwoPeers(q, h, p, g)
        },
        Peers::TwoPeers(a, x, c, d) => Peers::TwoPeers(a, x, c, d),
    }
}

// Side s of the defect's vertex, after r.
fn stop_step(b: &[i64], r: Peers, s: usize) -> Peers
    requires { Formed b.now × Readable (state_of b.now) × (s < side_count (state_of b.now)) }
    ensures { peers_of result ≡ stop_step (state_of b.now) (peers_of r) s }
{
    if meets_peer(b, s) {
        let o = side::opposite(s);
        let p = look::less(side::holder(b, o));
        let g = look::less(side::grandson(b, o));
        meet(r, p, g)
    } else {
        r
    }
}

// The Grow peers met at vertex v.
fn peers_at(b: &[i64], v: usize) -> Peers
    requires { Formed b.now × Readable (state_of b.now) × (v < vertex_count (state_of b.now)) }
    ensures { peers_of result ≡ fold (stop_step (state_of b.now)) no_peer (sides_at (state_of b.now) v) }
{
    let l = sides::sides_len(b, v);
    let mut r = Peers::NoPeer;
    for i in 0..l {
        let s = sides::vertex_side(b, v, i);
        r = stop_step(b, r, s);
    }
    r
}

// The answer for the defect node n by the peers that it met.
fn stop_with(n: usize, r: Peers) -> MaxUpdateLength
    ensures { result ≡ stop_with n (peers_of r) }
{
    match r {
        Peers::NoPeer => MaxUpdateLength::VertexShrinkStop(n),
        Peers::Peer(p, g) => MaxUpdateLength::VertexShrinkStopPeer(n, p, g),
        Peers::TwoPeers(q, h, p, g) => MaxUpdateLength::Conflicting(q, h, p, g),
    }
}

// The answer for node n.
pub fn stop_answer(b: &[i64], n: usize) -> MaxUpdateLength
    requires { Formed b.now × Readable (state_of b.now) × (n < node_count (state_of b.now)) }
    ensures { result ≡ stop_answer (state_of b.now) n (class_of (state_of b.now) n) }
{
    let x = node::class(b, n);
    if x < rows::vertex_count(b) {
        let r = peers_at(b, x);
        stop_with(n, r)
    } else {
        MaxUpdateLength::BlossomNeedExpand(n)
    }
}
