#![tactic(auto)]

// Contacts: the full edges that join two clusters, or a cluster and a virtual vertex, on a sound block.

ghost use Rattle.std.specs.Prelude.{◌≡◌, true, ◌+◌, ◌*◌, ◌<◌, ◌≤◌, pos, length, set};
ghost use Rattle.graph.specs.State.{edge_count, side_count, node_count};
ghost use Rattle.graph.specs.Word.{word_limit};
ghost use Rattle.graph.specs.Sound.{sound};
ghost use Rattle.graph.specs.Layout.{state_of};
ghost use Rattle.graph.specs.Form.{Formed};
ghost use Rattle.calls.specs.Reply.{over_front};
ghost use Rattle.calls.specs.Contacts.{outermost_of, side_node, touches, free_virtual, joins_nodes, is_contact, contacts, end_word, contact_words};

use graph::{edge, node, rows, side, vertex, words};

// The outermost node that node n lies in: up the parents, each of which is numbered above.
fn outermost(b: &[i64], n: usize) -> usize
    requires { Formed b.now × (sound (state_of b.now) ≡ true) × (n < node_count (state_of b.now)) }
    ensures { (result ≡ outermost_of (state_of b.now) n) × (result < node_count (state_of b.now)) }
{
    let mut m = n;
    let mut p = node::parent(b, n);
    while p != 0 {
        m = p - 1;
        p = node::parent(b, m);
    }
    m
}

// The outermost node of the holder of side s, as its number + 1; 0 where the side is free.
pub fn side_node(b: &[i64], s: usize) -> usize
    requires { Formed b.now × (sound (state_of b.now) ≡ true) × (s < side_count (state_of b.now)) }
    ensures { (result ≡ side_node (state_of b.now) s) × (result ≤ node_count (state_of b.now)) }
{
    let h = side::holder(b, s);
    if h == 0 { 0 } else { outermost(b, h - 1) + 1 }
}

// What stands at side s, as a word: the number of an outermost node, or -1.
pub fn end_word(b: &[i64], s: usize) -> i64
    requires { Formed b.now × (sound (state_of b.now) ≡ true) × (s < side_count (state_of b.now)) }
    ensures { result ≡ end_word (side_node (state_of b.now) s) }
{
    let p = side_node(b, s);
    if p == 0 { -1 } else { (p - 1) as i64 }
}

// Whether side s is free at a virtual vertex that is free.
fn free_virtual(b: &[i64], s: usize) -> bool
    requires { Formed b.now × (s < side_count (state_of b.now)) }
    ensures { result ≡ free_virtual (state_of b.now) s }
{
    let h = side::holder(b, s);
    let v = side::end(b, s);
    let k = vertex::holder(b, v);
    let f = vertex::virtual_flag(b, v);
    (h == 0) & (k == 0) & (f != 0)
}

// Whether the two growths of edge e sum to its weight.
fn touches(b: &[i64], e: usize) -> bool
    requires { Formed b.now × (e < edge_count (state_of b.now)) }
    ensures { result ≡ touches (state_of b.now) e }
{
    let g = side::growth(b, 2 * e);
    let h = side::growth(b, 2 * e + 1);
    g + h == edge::weight(b, e)
}

// Whether edge e joins nodes p and q, each a number + 1, or one of them, where the other is 0, and a virtual vertex.
fn joins(b: &[i64], e: usize, p: usize, q: usize) -> bool
    requires { Formed b.now × (e < edge_count (state_of b.now)) }
    ensures { result ≡ joins_nodes (state_of b.now) e p q }
{
    if p == 0 {
        let f = free_virtual(b, 2 * e);
        return (q != 0) & f;
    }
    if q == 0 {
        return free_virtual(b, 2 * e + 1);
    }
    p != q
}

// Whether edge e is a contact.
pub fn is_contact(b: &[i64], e: usize) -> bool
    requires { Formed b.now × (sound (state_of b.now) ≡ true) × (e < edge_count (state_of b.now)) }
    ensures { result ≡ is_contact (state_of b.now) e }
{
    if touches(b, e) {
        let p = side_node(b, 2 * e);
        let q = side_node(b, 2 * e + 1);
        joins(b, e, p, q)
    } else {
        false
    }
}

// What stands at side s becomes word i of the list.
fn put_end(b: &[i64], list: &mut [i64], i: usize, s: usize)
    requires { Formed b.now × (sound (state_of b.now) ≡ true) × (s < side_count (state_of b.now)) × (i < length list.old) }
    ensures { list.new ≡ set list.old i (end_word (side_node (state_of b.now) s)) }
{
    list[i] = end_word(b, s);
}

// Edge e and what stands at its ends become words i to i + 2 of the list.
fn put_contact(b: &[i64], list: &mut [i64], i: usize, e: usize)
    requires { Formed b.now × (sound (state_of b.now) ≡ true) × (e < edge_count (state_of b.now)) × (i + 3 ≤ length list.old) }
    ensures { list.new
        ≡ set (set (set list.old i (pos e)) (i + 1) (end_word (side_node (state_of b.now) (2 * e))))
        (i + 2) (end_word (side_node (state_of b.now) (2 * e + 1))) }
{
    words::put(list, i, e);
    put_end(b, list, i + 1, 2 * e);
    put_end(b, list, i + 2, 2 * e + 1);
}

// Each contact, by rising edge, goes to the front of `list`, three words for each; how many.
pub fn contacts(b: &[i64], list: &mut [i64]) -> usize
    requires { Formed b.now × (sound (state_of b.now) ≡ true) × (3 * edge_count (state_of b.now) ≤ length list.old) }
    ensures { (list.new ≡ over_front (contact_words (contacts (state_of b.now))) list.old)
        × (result ≡ length (contacts (state_of b.now))) }
{
    let m = rows::edge_count(b);
    let mut k = 0;
    for e in 0..m {
        if is_contact(b, e) {
            put_contact(b, list, 3 * k, e);
            k += 1;
        }
    }
    k
}
