// The rows of a block as parts of it.

ghost use Rattle.std.specs.Prelude.{◌+◌, ◌<◌};
ghost use Rattle.graph.specs.State.{vertex_count, edge_count, side_count};
ghost use Rattle.graph.specs.Layout.{state_of};
ghost use Rattle.graph.specs.Rows.{flags_row, end_row, weight_row, store_row, original_row};
ghost use Rattle.graph.specs.Form.{Laid};
ghost use Rattle.block_rows.specs.inner.Rows.{RowPart};

use graph::rows;

// Row k over the vertices: flags, holder, grandson, first.
pub fn vertex_row(b: &[i64], k: usize) -> &[i64]
    requires { Laid b.now × (k < 4) }
    ensures { RowPart b.now (flags_row + k) (vertex_count (state_of b.now)) result.now }
{
    let n = rows::vertex_count(b);
    let a = 16 + k * n;
    let e = a + n;
    &b[a..e]
}

// Row k over the sides: end, growth, holder, grandson, at.
pub fn side_row(b: &[i64], k: usize) -> &[i64]
    requires { Laid b.now × (k < 5) }
    ensures { RowPart b.now (end_row + k) (side_count (state_of b.now)) result.now }
{
    let v = rows::vertex_count(b);
    let n = rows::side_count(b);
    let a = 16 + 4 * v + k * n;
    let e = a + n;
    &b[a..e]
}

// The present weights of the edges.
pub fn weight_row(b: &[i64]) -> &[i64]
    requires { Laid b.now }
    ensures { RowPart b.now weight_row (edge_count (state_of b.now)) result.now }
{
    let v = rows::vertex_count(b);
    let n = rows::edge_count(b);
    let a = 16 + 4 * v + 10 * n;
    let e = a + n;
    &b[a..e]
}

// The list store, behind which the active list and the original weights stand.
pub fn store_row(b: &[i64]) -> &[i64]
    requires { Laid b.now }
    ensures { RowPart b.now store_row (state_of b.now).store_limit result.now }
{
    let e = b.len() - rows::edge_count(b) - rows::node_limit(b);
    let a = e - rows::store_limit(b);
    &b[a..e]
}

// The original weights of the edges, the last row.
pub fn original_row(b: &[i64]) -> &[i64]
    requires { Laid b.now }
    ensures { RowPart b.now original_row (edge_count (state_of b.now)) result.now }
{
    let n = rows::edge_count(b);
    let e = b.len();
    let a = e - n;
    &b[a..e]
}
