#![tactic(auto)]

// Growth of a prepared node: what refuses it, and the growth itself.

ghost use Rattle.std.specs.Prelude.{◌≡◌, true, map, ltb, ◌+◌, ◌<◌, ◌≤◌};
ghost use Rattle.graph.specs.Word.{to_nat, word_limit};
ghost use Rattle.graph.specs.Basic.{all, any, fold};
ghost use Rattle.graph.specs.State.{side_count, node_count, boundary_of, overgrown_of, growth_at, grown_over, weight_over, with_overgrown};
ghost use Rattle.graph.specs.Node.{Movable, moved, with_top};
ghost use Rattle.graph.specs.Layout.{state_of};
ghost use Rattle.graph.specs.Form.{Formed};
ghost use Rattle.graph.specs.inner.Form.{Becomes, sides_ok};
ghost use Rattle.graph.specs.inner.Readable.{Readable};
ghost use Rattle.refusal.specs.Refusal.{refusal_number};
ghost use Rattle.growth.specs.Growth.{passes_weight, grow_check, move_side, grow_apply};
ghost use Rattle.growth.specs.inner.Moving.{number_refuses, node_refuses, side_refuses, refuses, move_node, SidesMovable, TopPut, Growing};

use gap::Gap;
use graph::dual_node::{DualNode, UP};
use graph::{dual_node, edge, lists, node, side, top, words};
use refusal::Refusal;

// ---- what refuses it

// Whether growing side s by l passes the weight of its edge.
fn passes_inner(b: &[i64], l: usize, s: usize) -> bool
    requires { Formed b.now × Readable (state_of b.now) × (l ≤ word_limit) × (s < side_count (state_of b.now)) }
    ensures { result ≡ ltb (weight_over (state_of b.now) s) (grown_over (state_of b.now) s + l) }
{
    let o = side::opposite(s);
    let grown = side::growth(b, s) + side::growth(b, o) + l;
    edge::weight(b, s / 2) < grown
}

// The same of an edge that node n does not hold on both sides, by its gap where it is not inner.
fn passes_weight(b: &[i64], n: usize, l: usize, s: usize) -> bool
    requires { Formed b.now × Readable (state_of b.now) × (n < node_count (state_of b.now)) × (l ≤ word_limit)
        × (s < side_count (state_of b.now)) }
    ensures { result ≡ passes_weight (state_of b.now) n l s }
{
    let o = side::opposite(s);
    if side::holder(b, o) == n + 1 {
        return false;
    }
    match gap::edge_gap(b, s / 2) {
        Gap::Inner => passes_inner(b, l, s),
        Gap::Over(_) => true,
        Gap::Left(x) => x < l,
    }
}

// Whether side s calls for refusal k: 10, 12, or else 11.
fn side_refuses(b: &[i64], n: usize, l: usize, k: usize, s: usize) -> bool
    requires { Formed b.now × Readable (state_of b.now) × (n < node_count (state_of b.now)) × (l ≤ word_limit)
        × (s < side_count (state_of b.now)) }
    ensures { result ≡ side_refuses (state_of b.now) n l k s }
{
    if k == 10 {
        passes_weight(b, n, l, s)
    } else if k == 12 {
        1100000000000 < side::growth(b, s) + l
    } else {
        side::growth(b, s) < l
    }
}

// Whether some side of a boundary, handed on as its stretch of the list store, calls for refusal k.
fn some_side_refuses(b: &[i64], boundary: &[i64], n: usize, l: usize, k: usize) -> bool
    requires { Formed b.now × Readable (state_of b.now) × (n < node_count (state_of b.now)) × (l ≤ word_limit)
        × (all (λ s. ltb s (side_count (state_of b.now))) (map to_nat boundary.now) ≡ true) }
    ensures { result ≡ any (side_refuses (state_of b.now) n l k) (map to_nat boundary.now) }
{
    boundary
        .iter()
        .any(|s| side_refuses(b, n, l, k, words::to_nat(*s)))
}

// Whether some side of the boundary of node n calls for refusal k.
fn boundary_refuses(b: &[i64], n: usize, l: usize, k: usize) -> bool
    requires { Formed b.now × Readable (state_of b.now) × (n < node_count (state_of b.now)) × (l ≤ word_limit)
        × (sides_ok (state_of b.now) n ≡ true) }
    ensures { result ≡ any (side_refuses (state_of b.now) n l k) (boundary_of (state_of b.now) n) }
{
    let boundary = lists::boundary(b, n);
    some_side_refuses(b, boundary, n, l, k)
}

// Whether a dual variable or an amount calls for refusal k: 12, or else 11.
fn number_refuses(l: usize, k: usize, x: usize) -> bool
    requires { (l ≤ word_limit) × (x < word_limit) }
    ensures { result ≡ number_refuses l k x }
{
    if k == 12 {
        DualNode::MAX_DUAL < x + l
    } else {
        x < l
    }
}

// Whether the dual variable or the top amount of node n calls for refusal k.
fn node_refuses(b: &[i64], n: usize, l: usize, k: usize) -> bool
    requires { Formed b.now × (n < node_count (state_of b.now)) × (l ≤ word_limit) }
    ensures { result ≡ node_refuses (state_of b.now) n l k }
{
    let y = node::dual(b, n);
    if number_refuses(l, k, y) {
        true
    } else if lists::overgrown_len(b, n) == 0 {
        false
    } else {
        let a = top::amount(b, n);
        number_refuses(l, k, a)
    }
}

// Whether node n or some side of its boundary calls for refusal k.
fn refuses(b: &[i64], n: usize, l: usize, k: usize) -> bool
    requires { Formed b.now × Readable (state_of b.now) × (n < node_count (state_of b.now)) × (l ≤ word_limit)
        × (sides_ok (state_of b.now) n ≡ true) }
    ensures { result ≡ refuses (state_of b.now) n l k }
{
    if node_refuses(b, n, l, k) {
        true
    } else {
        boundary_refuses(b, n, l, k)
    }
}

// What refuses the growth of node n by l in direction d.
pub fn grow_check(b: &[i64], n: usize, d: usize, l: usize) -> Result<(), Refusal>
    requires { Formed b.now × Readable (state_of b.now) × (n < node_count (state_of b.now)) × (l ≤ word_limit)
        × (sides_ok (state_of b.now) n ≡ true) }
    ensures { refusal_number result ≡ grow_check (state_of b.now) n d l }
{
    if d == UP {
        if boundary_refuses(b, n, l, 10) {
            Err(Refusal::PassesWeight)
        } else if refuses(b, n, l, 12) {
            Err(Refusal::AboveLimit)
        } else {
            Ok(())
        }
    } else if refuses(b, n, l, 11) {
        Err(Refusal::BelowZero)
    } else {
        Ok(())
    }
}

// ---- the growth

// The top amount of a record is written back to node n, if there is one.
fn put_top(b: &mut [i64], n: usize, x: DualNode)
    requires { Formed b.old × (n < node_count (state_of b.old)) × TopPut (state_of b.old) n x }
    ensures { Becomes b.old b.new
        (with_overgrown (state_of b.old) n (with_top x.top (overgrown_of (state_of b.old) n))) }
{
    if x.overgrown != 0 {
        top::set_amount(b, n, x.top);
    }
}

// The dual variable and the top amount of node n are moved: its record is handed back grown.
fn move_node(b: &mut [i64], n: usize, d: usize, l: usize)
    requires { Formed b.old × (n < node_count (state_of b.old)) × Growing (state_of b.old) n d l }
    ensures { Becomes b.old b.new (move_node (state_of b.old) n d l) }
{
    let x = top::node(b, n).grown(d, l);
    node::set_dual(b, n, x.dual);
    put_top(b, n, x);
}

// Side s is moved.
fn move_side(b: &mut [i64], d: usize, l: usize, s: usize)
    requires { Formed b.old × (s < side_count (state_of b.old)) × Movable d l (growth_at (state_of b.old) s)
        × (moved d l (growth_at (state_of b.old) s) < word_limit) }
    ensures { Becomes b.old b.new (move_side d l (state_of b.old) s) }
{
    let x = side::growth(b, s);
    side::set_growth(b, s, dual_node::move_number(d, l, x));
}

// Every side of the boundary of node n is moved.
fn move_sides(b: &mut [i64], n: usize, d: usize, l: usize)
    requires { Formed b.old × (n < node_count (state_of b.old)) × SidesMovable (state_of b.old) n d l }
    ensures { Becomes b.old b.new (fold (move_side d l) (state_of b.old) (boundary_of (state_of b.old) n)) }
{
    let m = lists::boundary_len(b, n);
    for i in 0..m {
        let s = lists::boundary_side(b, n, i);
        move_side(b, d, l, s);
    }
}

// Node n grows by l in direction d: its dual variable, its top amount and every side of its boundary are moved.
pub fn grow_apply(b: &mut [i64], n: usize, d: usize, l: usize)
    requires { Formed b.old × (n < node_count (state_of b.old)) × Growing (state_of b.old) n d l }
    ensures { Becomes b.old b.new (grow_apply (state_of b.old) n d l) }
{
    move_node(b, n, d, l);
    move_sides(b, n, d, l);
}
