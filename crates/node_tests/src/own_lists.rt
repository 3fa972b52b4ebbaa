// The soundness test of the lists of an outermost node: they hold sides, and vertices with amounts, nothing twice, and only what the node holds. What was
// met is marked 1. A side has one holder, so marks that earlier nodes left are not met again.

ghost use Rattle.std.specs.Prelude.{◌≡◌, true, ◌&&◌, ◌+◌, ◌<◌, ◌≤◌, ltb, length, get_or};
ghost use Rattle.graph.specs.Basic.{all};
ghost use Rattle.graph.specs.State.{vertex_count, side_count, node_count, holder_at, vertex_holder_at, boundary_of, overgrown_of};
ghost use Rattle.graph.specs.Sound.{over_sound, own_lists};
ghost use Rattle.graph.specs.Layout.{overgrown_from, state_of};
ghost use Rattle.graph.specs.Rows.{vertex_holder_row, holder_row, store_row};
ghost use Rattle.graph.specs.Form.{Laid, Listed};
ghost use Rattle.graph.specs.inner.Form.{sides_ok};
ghost use Rattle.graph.specs.inner.Lists.{start_word};
ghost use Rattle.graph.specs.inner.Scans.{side_held, vertex_held, overgrown_vertices, once_all};
ghost use Rattle.block_rows.specs.inner.Rows.{RowPart};
ghost use Rattle.node_tests.specs.inner.Marks.{Unmarked, Marks};

use crate::node_lists;
use block_rows::{parts, row_words};
use graph::{lists, rows};

// Entry i of the boundary of node n, which is a side, where its lists start at a.
fn side_at(b: &[i64], store: &[i64], n: usize, a: usize, i: usize) -> usize
    requires { Laid b.now × Listed b.now × (n < node_count (state_of b.now)) × (i < length (boundary_of (state_of b.now) n))
        × RowPart b.now store_row (state_of b.now).store_limit store.now × (a ≡ start_word b.now n)
        × (ltb (get_or (boundary_of (state_of b.now) n) i 0) (side_count (state_of b.now)) ≡ true) }
    ensures { (result ≡ get_or (boundary_of (state_of b.now) n) i 0) × (result < side_count (state_of b.now)) }
{
    row_words::number(store, node_lists::side_place(b, n, a, i))
}

// The vertex of entry i of the overgrown stack of node n, which is a vertex with an amount.
fn vertex_at(b: &[i64], store: &[i64], n: usize, i: usize) -> usize
    requires { Laid b.now × Listed b.now × (n < node_count (state_of b.now)) × (i < length (overgrown_of (state_of b.now) n))
        × RowPart b.now store_row (state_of b.now).store_limit store.now
        × (over_sound (state_of b.now) (get_or (overgrown_of (state_of b.now) n) i (overgrown_from 0)) ≡ true) }
    ensures { (result ≡ get_or (overgrown_vertices (state_of b.now) n) i 0) × (result < vertex_count (state_of b.now)) }
{
    row_words::number(store, node_lists::entry_place(b, n, i)) % 1024
}

// Whether the boundary of node n holds sides, none twice, and only sides that the node holds; `holder` is their row.
fn boundary_own(b: &[i64], store: &[i64], holder: &[i64], n: usize, marks: &mut [u8]) -> bool
    requires { Laid b.now × Listed b.now × (n < node_count (state_of b.now))
        × RowPart b.now store_row (state_of b.now).store_limit store.now × RowPart b.now holder_row (side_count (state_of b.now)) holder.now
        × (side_count (state_of b.now) ≤ length marks.old) × Unmarked (holder_at (state_of b.now)) n marks.old }
    ensures { (result ≡ sides_ok (state_of b.now) n && once_all (side_held (state_of b.now) n) (boundary_of (state_of b.now) n))
        × Unmarked (holder_at (state_of b.now)) (n + 1) marks.new }
{
    let a = lists::start(b, n);
    let k = lists::boundary_len(b, n);
    for i in 0..k {
        if !node_lists::is_side(b, store, n, a, i) {
            return false;
        }
        let s = side_at(b, store, n, a, i);
        if row_words::holds(holder, s, n + 1) & (marks[s] != 1) {
            marks[s] = 1;
        } else {
            return false;
        }
    }
    true
}

// Whether the overgrown stack of node n holds vertices with amounts, none twice, and only vertices that the node holds; `holder` is their row.
fn overgrown_own(b: &[i64], store: &[i64], holder: &[i64], n: usize, marks: &mut [u8]) -> bool
    requires { Laid b.now × Listed b.now × (n < node_count (state_of b.now))
        × RowPart b.now store_row (state_of b.now).store_limit store.now × RowPart b.now vertex_holder_row (vertex_count (state_of b.now)) holder.now
        × (vertex_count (state_of b.now) ≤ length marks.old) × Unmarked (vertex_holder_at (state_of b.now)) n marks.old }
    ensures { (result
        ≡ all (over_sound (state_of b.now)) (overgrown_of (state_of b.now) n)
        && once_all (vertex_held (state_of b.now) n) (overgrown_vertices (state_of b.now) n))
        × Unmarked (vertex_holder_at (state_of b.now)) (n + 1) marks.new }
{
    let k = lists::overgrown_len(b, n);
    for i in 0..k {
        if !node_lists::entry_sound(b, store, n, i) {
            return false;
        }
        let v = vertex_at(b, store, n, i);
        if row_words::holds(holder, v, n + 1) & (marks[v] != 1) {
            marks[v] = 1;
        } else {
            return false;
        }
    }
    true
}

// Whether both lists of node n are so.
pub fn own_lists(b: &[i64], store: &[i64], n: usize, sides: &mut [u8], vertices: &mut [u8]) -> bool
    requires { Laid b.now × Listed b.now × (n < node_count (state_of b.now))
        × RowPart b.now store_row (state_of b.now).store_limit store.now × Marks (state_of b.now) n sides.old vertices.old }
    ensures { (result
        ≡ sides_ok (state_of b.now) n && all (over_sound (state_of b.now)) (overgrown_of (state_of b.now) n)
        && own_lists (state_of b.now) n)
        × Marks (state_of b.now) (n + 1) sides.new vertices.new }
{
    let holder = parts::side_row(b, rows::HOLDER);
    let vertex_holder = parts::vertex_row(b, rows::VERTEX_HOLDER);
    let x = boundary_own(b, store, holder, n, sides);
    let y = overgrown_own(b, store, vertex_holder, n, vertices);
    x & y
}
