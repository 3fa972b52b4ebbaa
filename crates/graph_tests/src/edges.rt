// The soundness test of the edges, and of the sides at each vertex: one walk over the edges.

ghost use Rattle.std.specs.Prelude.{◌≡◌, true, false, ◌&&◌, ◌+◌, ◌*◌, ◌<◌, ◌≤◌, length};
ghost use Rattle.graph.specs.Basic.{all_below};
ghost use Rattle.graph.specs.State.{vertex_count, edge_count, side_count, end_at};
ghost use Rattle.graph.specs.Sound.{edge_sound};
ghost use Rattle.graph.specs.Layout.{state_of};
ghost use Rattle.graph.specs.Form.{Laid};
ghost use Rattle.graph.specs.Rows.{first_row, end_row, at_row};
ghost use Rattle.graph.specs.inner.SidesAt.{Rising};
ghost use Rattle.graph.specs.inner.Scans.{wired_at};
ghost use Rattle.block_rows.specs.inner.Rows.{RowPart};
ghost use Rattle.graph_tests.specs.inner.Rows.{EdgeRows};
ghost use Rattle.graph_tests.specs.inner.Walk.{placed_at, reached_at, Firsts, Walking};

use crate::vertices;
use block_rows::{parts, row_words};
use graph::rows;

// ---- edges

// Whether the numbers of edge i are in range and its ends differ; the three lists are these rows.
fn edge_sound(b: &[i64], end: &[i64], weight: &[i64], original: &[i64], i: usize) -> bool
    requires { Laid b.now × (i < edge_count (state_of b.now)) × EdgeRows b.now end.now weight.now original.now }
    ensures { result ≡ edge_sound (state_of b.now) i }
{
    let v = rows::vertex_count(b);
    let x = row_words::below(end, 2 * i, v);
    let y = row_words::below(end, 2 * i + 1, v);
    if x & y {
        let p = row_words::number(end, 2 * i);
        let q = row_words::number(end, 2 * i + 1);
        let w = row_words::at_most(weight, i, 1000000);
        let o = row_words::at_most(original, i, 1000000);
        (p != q) & w & o
    } else {
        false
    }
}

// ---- the sides at each vertex

// Whether side s stands at place p; `at` is the row of places.
fn placed_at(b: &[i64], at: &[i64], p: usize, s: usize) -> bool
    requires { Laid b.now × (s < side_count (state_of b.now)) × RowPart b.now at_row (side_count (state_of b.now)) at.now }
    ensures { result ≡ placed_at b.now p s }
{
    if p < rows::side_count(b) {
        row_words::holds(at, p, s)
    } else {
        false
    }
}

// Whether side s stands at the next place of its vertex, which then goes on by one.
fn walk_side(b: &[i64], end: &[i64], at: &[i64], s: usize, next: &mut [u16]) -> bool
    requires { Laid b.now × Rising b.now × (s < side_count (state_of b.now)) × (end_at (state_of b.now) s < vertex_count (state_of b.now))
        × RowPart b.now end_row (side_count (state_of b.now)) end.now × RowPart b.now at_row (side_count (state_of b.now)) at.now
        × (vertex_count (state_of b.now) ≤ length next.old) × Walking b.now s next.old }
    ensures { (result ≡ true → Walking b.now (s + 1) next.new)
        × (result ≡ false → all_below (wired_at (state_of b.now)) (vertex_count (state_of b.now)) ≡ false) }
{
    let v = row_words::number(end, s);
    let p = usize::from(next[v]);
    if placed_at(b, at, p, s) {
        next[v] = vertices::place(p + 1);
        true
    } else {
        false
    }
}

// The same of both sides of edge i, which is sound.
fn walk_edge(b: &[i64], end: &[i64], at: &[i64], i: usize, next: &mut [u16]) -> bool
    requires { Laid b.now × Rising b.now × (i < edge_count (state_of b.now)) × (edge_sound (state_of b.now) i ≡ true)
        × RowPart b.now end_row (side_count (state_of b.now)) end.now × RowPart b.now at_row (side_count (state_of b.now)) at.now
        × (vertex_count (state_of b.now) ≤ length next.old) × Walking b.now (2 * i) next.old }
    ensures { (result ≡ true → Walking b.now (2 * (i + 1)) next.new)
        × (result ≡ false → all_below (wired_at (state_of b.now)) (vertex_count (state_of b.now)) ≡ false) }
{
    if walk_side(b, end, at, 2 * i, next) {
        walk_side(b, end, at, 2 * i + 1, next)
    } else {
        false
    }
}

// Whether all edges are sound and their sides stand at their places, where `next` has where the sides of each vertex begin.
fn edges_in(
    b: &[i64],
    end: &[i64],
    at: &[i64],
    weight: &[i64],
    original: &[i64],
    next: &mut [u16],
) -> bool
    requires { Laid b.now × Rising b.now × EdgeRows b.now end.now weight.now original.now
        × RowPart b.now at_row (side_count (state_of b.now)) at.now
        × (vertex_count (state_of b.now) ≤ length next.old) × Firsts b.now (vertex_count (state_of b.now)) next.old }
    ensures { (result ≡ true
        → (all_below (edge_sound (state_of b.now)) (edge_count (state_of b.now)) ≡ true)
        × Walking b.now (side_count (state_of b.now)) next.new)
        × (result ≡ false
        → all_below (edge_sound (state_of b.now)) (edge_count (state_of b.now))
        && all_below (wired_at (state_of b.now)) (vertex_count (state_of b.now)) ≡ false) }
{
    let n = rows::edge_count(b);
    for i in 0..n {
        if !edge_sound(b, end, weight, original, i) {
            return false;
        }
        if !walk_edge(b, end, at, i, next) {
            return false;
        }
    }
    true
}

// Whether the places in `next` have reached the ends of their stretches; `first` is the row of their beginnings.
fn all_reached(b: &[i64], first: &[i64], next: &[u16]) -> bool
    requires { Laid b.now × RowPart b.now first_row (vertex_count (state_of b.now)) first.now
        × (vertex_count (state_of b.now) ≤ length next.now) }
    ensures { result ≡ all_below (reached_at b.now next.now) (vertex_count (state_of b.now)) }
{
    let n = rows::vertex_count(b) - 1;
    for v in 0..n {
        if !row_words::holds(first, v + 1, usize::from(next[v])) {
            return false;
        }
    }
    rows::side_count(b) == usize::from(next[n])
}

// Whether all edges are sound and the sides at each vertex are those whose end it is, by rising number.
pub fn wired(b: &[i64], next: &mut [u16]) -> bool
    requires { Laid b.now × Rising b.now × (vertex_count (state_of b.now) ≤ length next.old)
        × Firsts b.now (vertex_count (state_of b.now)) next.old }
    ensures { result
        ≡ all_below (edge_sound (state_of b.now)) (edge_count (state_of b.now))
        && all_below (wired_at (state_of b.now)) (vertex_count (state_of b.now)) }
{
    let end = parts::side_row(b, rows::END);
    let at = parts::side_row(b, rows::AT);
    let weight = parts::weight_row(b);
    let original = parts::original_row(b);
    if edges_in(b, end, at, weight, original, next) {
        all_reached(b, parts::vertex_row(b, rows::FIRST), next)
    } else {
        false
    }
}
