// Whether every vertex reaches a virtual one, by marks that spread from the virtual vertices along sides until none is new.

ghost use Rattle.std.specs.Prelude.{◌≡◌, ◌*◌, ◌≤◌, ◌<◌, replicate};
ghost use Rattle.graph.specs.Basic.{all_below};
ghost use Rattle.table_words.specs.Sides.{marked};
ghost use Rattle.table_check.specs.Tests.{spreads_at, spread_side, spread_sides, spread_new, spread_until, virtual_marks, all_marked};

use graph::words::to_nat;
use table_words::{marks, words};

// Every virtual vertex gets a mark.
fn mark_virtuals(m: &mut [usize], virtuals: &[i64])
    ensures { m.new ≡ virtual_marks virtuals.now m.old }
{
    for x in virtuals {
        marks::mark_if(m, to_nat(*x), true);
    }
}

// Whether a mark spreads along side s: its vertex has one, the vertex across has none.
fn spreads_at(m: &[usize], edges: &[i64], s: usize) -> bool
    requires { s < 8192 }
    ensures { result ≡ spreads_at m.now edges.now s }
{
    marks::marked(m, words::near(edges, s)) & !marks::marked(m, words::across(edges, s))
}

// It does so; whether it did.
fn spread_side(m: &mut [usize], edges: &[i64], s: usize) -> bool
    requires { s < 8192 }
    ensures { (result ≡ spreads_at m.old edges.now s) × (m.new ≡ spread_side edges.now m.old s) }
{
    let t = spreads_at(m, edges, s);
    marks::mark_if(m, words::across(edges, s), t);
    t
}

// Once along every side; whether some mark is new.
fn spread_once(m: &mut [usize], e: usize, edges: &[i64]) -> bool
    requires { e ≤ 4096 }
    ensures { (result ≡ spread_new edges.now m.old (2 * e))
        × (m.new ≡ spread_sides edges.now m.old (2 * e)) }
{
    let mut t = false;
    for s in 0..2 * e {
        if spread_side(m, edges, s) {
            t = true;
        }
    }
    t
}

// Again and again until none is new, at most v times.
fn spread(m: &mut [usize], v: usize, e: usize, edges: &[i64])
    requires { e ≤ 4096 }
    ensures { m.new ≡ spread_until e edges.now v m.old }
{
    for _ in 0..v {
        if !spread_once(m, e, edges) {
            return;
        }
    }
}

// Whether every vertex has a mark.
fn each_marked(m: &[usize], v: usize) -> bool
    ensures { result ≡ all_below (marked m.now) v }
{
    (0..v).all(|u| marks::marked(m, u))
}

// Marks spread from the virtual vertices; whether every vertex has one in the end.
fn reach_by(m: &mut [usize], v: usize, e: usize, edges: &[i64], virtuals: &[i64]) -> bool
    requires { e ≤ 4096 }
    ensures { result ≡ all_marked v e edges.now virtuals.now m.old }
{
    mark_virtuals(m, virtuals);
    spread(m, v, e, edges);
    each_marked(m, v)
}

// Whether every vertex reaches a virtual one.
pub fn in_reach(v: usize, e: usize, edges: &[i64], virtuals: &[i64]) -> bool
    requires { (v ≤ 1024) × (e ≤ 4096) }
    ensures { result ≡ all_marked v e edges.now virtuals.now (replicate v 0) }
{
    let mut m = [0usize; 1024];
    reach_by(&mut m[0..v], v, e, edges, virtuals)
}
