// The arrays of a block: place i of row k (docs/LAYOUT.md numbers the rows). Where a row begins stands here, and for rows lent as parts of a
// block in lists::boundary and in block_rows::parts.

ghost use Rattle.std.specs.Prelude.{◌≡◌, ◌+◌, ◌<◌, ◌≤◌, length, get_or, set};
ghost use Rattle.graph.specs.State.{vertex_count, edge_count, side_count, node_count};
ghost use Rattle.graph.specs.Layout.{rows_of, row, state_of};
ghost use Rattle.graph.specs.Form.{Laid};
ghost use Rattle.graph.specs.inner.Form.{Rowed};
ghost use Rattle.graph.specs.inner.Found.{Found};
ghost use Rattle.graph.specs.Rows.{header_row, flags_row, end_row, weight_row, class_row, store_row, active_row, original_row};
ghost use Rattle.graph.specs.Word.{word_limit};

use crate::words;

// ---- the rows by what they hold

// Over vertices, from the first of these rows on.
pub const FLAGS: usize = 0; // virtual + 2 * defect

pub const VERTEX_HOLDER: usize = 1;

pub const VERTEX_GRANDSON: usize = 2;

pub const FIRST: usize = 3; // where the sides at a vertex begin

// Over sides.
pub const END: usize = 0; // the vertex of a side

pub const GROWTH: usize = 1;

pub const HOLDER: usize = 2;

pub const GRANDSON: usize = 3;

pub const AT: usize = 4; // the sides at each vertex, one after another

// Over nodes.
pub const CLASS: usize = 0;

pub const GROW_STATE: usize = 1;

pub const PARENT: usize = 2;

pub const DUAL: usize = 3;

pub const START: usize = 4; // where the lists of a node begin

pub const BOUNDARY_LENGTH: usize = 5;

pub const OVERGROWN_LENGTH: usize = 6;

// ---- counts

pub fn vertex_count(b: &[i64]) -> usize
    requires { Laid b.now }
    ensures { (result ≡ vertex_count (state_of b.now)) × (1 ≤ result) × (result ≤ 1024) }
{
    words::word(b, 0)
}

pub fn edge_count(b: &[i64]) -> usize
    requires { Laid b.now }
    ensures { (result ≡ edge_count (state_of b.now)) × (1 ≤ result) × (result ≤ 4096) }
{
    words::word(b, 1)
}

pub fn side_count(b: &[i64]) -> usize
    requires { Laid b.now }
    ensures { (result ≡ side_count (state_of b.now)) × (2 ≤ result) × (result ≤ 8192) }
{
    2 * words::word(b, 1)
}

pub fn node_count(b: &[i64]) -> usize
    requires { Laid b.now }
    ensures { (result ≡ node_count (state_of b.now)) × (result ≤ (state_of b.now).node_limit) × (result ≤ 1024) }
{
    words::word(b, 4)
}

pub fn node_limit(b: &[i64]) -> usize
    requires { Laid b.now }
    ensures { (result ≡ (state_of b.now).node_limit) × (result ≤ 1024) }
{
    words::word(b, 2)
}

pub fn store_limit(b: &[i64]) -> usize
    requires { Laid b.now }
    ensures { (result ≡ (state_of b.now).store_limit) × (result ≤ 65536) }
{
    words::word(b, 3)
}

// The length of the active list.
pub fn active_count(b: &[i64]) -> usize
    requires { Laid b.now }
    ensures { (result ≡ length (state_of b.now).active) × (result ≤ (state_of b.now).node_limit) × (result ≤ 1024) }
{
    words::word(b, 5)
}

// Whether a change of weights stands: 1 or 0.
pub fn reweighted(b: &[i64]) -> usize
    requires { Laid b.now }
    ensures { (result ≡ (state_of b.now).graph.reweighted) × (result < word_limit) }
{
    words::word(b, 6)
}

pub fn put_reweighted(b: &mut [i64], x: usize)
    requires { Laid b.old × (x < word_limit) }
    ensures { Rowed header_row b.old b.new (set (row (rows_of b.old) header_row) 6 x) }
{
    words::put(b, 6, x);
}

// ---- where a place stands

// Over vertices: flags, holder, grandson, first.
pub fn vertex_place(b: &[i64], k: usize, v: usize) -> usize
    requires { Laid b.now × (k < 4) × (v < vertex_count (state_of b.now)) }
    ensures { Found b.now (flags_row + k) v result }
{
    let m = words::word(b, 0);
    16 + k * m + v
}

// Over sides: end, growth, holder, grandson, at.
pub fn side_place(b: &[i64], k: usize, s: usize) -> usize
    requires { Laid b.now × (k < 5) × (s < side_count (state_of b.now)) }
    ensures { Found b.now (end_row + k) s result }
{
    let m = words::word(b, 0);
    let e = words::word(b, 1);
    16 + 4 * m + k * (2 * e) + s
}

// Over edges: weight.
pub fn edge_place(b: &[i64], i: usize) -> usize
    requires { Laid b.now × (i < edge_count (state_of b.now)) }
    ensures { Found b.now weight_row i result }
{
    let m = words::word(b, 0);
    let e = words::word(b, 1);
    16 + 4 * m + 10 * e + i
}

// Over nodes: class, grow state, parent, dual variable, start, boundary length, overgrown length.
pub fn node_place(b: &[i64], k: usize, n: usize) -> usize
    requires { Laid b.now × (k < 7) × (n < (state_of b.now).node_limit) }
    ensures { Found b.now (class_row + k) n result }
{
    let m = words::word(b, 0);
    let e = words::word(b, 1);
    let l = words::word(b, 2);
    16 + 4 * m + 11 * e + k * l + n
}

// The list store.
pub fn store_place(b: &[i64], i: usize) -> usize
    requires { Laid b.now × (i < (state_of b.now).store_limit) }
    ensures { Found b.now store_row i result }
{
    let m = words::word(b, 0);
    let e = words::word(b, 1);
    let n = words::word(b, 2);
    16 + 4 * m + 11 * e + 7 * n + i
}

// The active list.
fn active_place(b: &[i64], i: usize) -> usize
    requires { Laid b.now × (i < (state_of b.now).node_limit) }
    ensures { Found b.now active_row i result }
{
    let m = words::word(b, 0);
    let e = words::word(b, 1);
    let n = words::word(b, 2);
    let l = words::word(b, 3);
    16 + 4 * m + 11 * e + 7 * n + l + i
}

// Over edges: original weight.
pub fn original_place(b: &[i64], i: usize) -> usize
    requires { Laid b.now × (i < edge_count (state_of b.now)) }
    ensures { Found b.now original_row i result }
{
    let m = words::word(b, 0);
    let e = words::word(b, 1);
    let n = words::word(b, 2);
    let l = words::word(b, 3);
    16 + 4 * m + 11 * e + 8 * n + l + i
}

// ---- reading and writing a place

pub fn vertex_word(b: &[i64], k: usize, v: usize) -> usize
    requires { Laid b.now × (k < 4) × (v < vertex_count (state_of b.now)) }
    ensures { (result ≡ get_or (row (rows_of b.now) (flags_row + k)) v 0) × (result < word_limit) }
{
    words::word(b, vertex_place(b, k, v))
}

pub fn put_vertex(b: &mut [i64], k: usize, v: usize, x: usize)
    requires { Laid b.old × (k < 4) × (v < vertex_count (state_of b.old)) × (x < word_limit) }
    ensures { Rowed (flags_row + k) b.old b.new (set (row (rows_of b.old) (flags_row + k)) v x) }
{
    let p = vertex_place(b, k, v);
    words::put(b, p, x);
}

pub fn side_word(b: &[i64], k: usize, s: usize) -> usize
    requires { Laid b.now × (k < 5) × (s < side_count (state_of b.now)) }
    ensures { (result ≡ get_or (row (rows_of b.now) (end_row + k)) s 0) × (result < word_limit) }
{
    words::word(b, side_place(b, k, s))
}

pub fn put_side(b: &mut [i64], k: usize, s: usize, x: usize)
    requires { Laid b.old × (k < 5) × (s < side_count (state_of b.old)) × (x < word_limit) }
    ensures { Rowed (end_row + k) b.old b.new (set (row (rows_of b.old) (end_row + k)) s x) }
{
    let p = side_place(b, k, s);
    words::put(b, p, x);
}

pub fn edge_word(b: &[i64], i: usize) -> usize
    requires { Laid b.now × (i < edge_count (state_of b.now)) }
    ensures { (result ≡ get_or (row (rows_of b.now) weight_row) i 0) × (result < word_limit) }
{
    words::word(b, edge_place(b, i))
}

pub fn put_edge(b: &mut [i64], i: usize, x: usize)
    requires { Laid b.old × (i < edge_count (state_of b.old)) × (x < word_limit) }
    ensures { Rowed weight_row b.old b.new (set (row (rows_of b.old) weight_row) i x) }
{
    let p = edge_place(b, i);
    words::put(b, p, x);
}

pub fn node_word(b: &[i64], k: usize, n: usize) -> usize
    requires { Laid b.now × (k < 7) × (n < (state_of b.now).node_limit) }
    ensures { (result ≡ get_or (row (rows_of b.now) (class_row + k)) n 0) × (result < word_limit) }
{
    words::word(b, node_place(b, k, n))
}

pub fn put_node(b: &mut [i64], k: usize, n: usize, x: usize)
    requires { Laid b.old × (k < 7) × (n < (state_of b.old).node_limit) × (x < word_limit) }
    ensures { Rowed (class_row + k) b.old b.new (set (row (rows_of b.old) (class_row + k)) n x) }
{
    let p = node_place(b, k, n);
    words::put(b, p, x);
}

pub fn store_word(b: &[i64], i: usize) -> usize
    requires { Laid b.now × (i < (state_of b.now).store_limit) }
    ensures { (result ≡ get_or (row (rows_of b.now) store_row) i 0) × (result < word_limit) }
{
    words::word(b, store_place(b, i))
}

pub fn put_store(b: &mut [i64], i: usize, x: usize)
    requires { Laid b.old × (i < (state_of b.old).store_limit) × (x < word_limit) }
    ensures { Rowed store_row b.old b.new (set (row (rows_of b.old) store_row) i x) }
{
    let p = store_place(b, i);
    words::put(b, p, x);
}

// Node i of the active list.
pub fn active_node(b: &[i64], i: usize) -> usize
    requires { Laid b.now × (i < length (state_of b.now).active) }
    ensures { (result ≡ get_or (state_of b.now).active i 0) × (result < word_limit) }
{
    words::word(b, active_place(b, i))
}

pub fn put_active(b: &mut [i64], i: usize, x: usize)
    requires { Laid b.old × (i < (state_of b.old).node_limit) × (x < word_limit) }
    ensures { Rowed active_row b.old b.new (set (row (rows_of b.old) active_row) i x) }
{
    let p = active_place(b, i);
    words::put(b, p, x);
}

pub fn original_word(b: &[i64], i: usize) -> usize
    requires { Laid b.now × (i < edge_count (state_of b.now)) }
    ensures { (result ≡ get_or (row (rows_of b.now) original_row) i 0) × (result < word_limit) }
{
    words::word(b, original_place(b, i))
}

pub fn put_original(b: &mut [i64], i: usize, x: usize)
    requires { Laid b.old × (i < edge_count (state_of b.old)) × (x < word_limit) }
    ensures { Rowed original_row b.old b.new (set (row (rows_of b.old) original_row) i x) }
{
    let p = original_place(b, i);
    words::put(b, p, x);
}
