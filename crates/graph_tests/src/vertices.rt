// The soundness test of the numbers that are stored of each vertex, and of where its sides begin.

ghost use Rattle.std.specs.Prelude.{◌≡◌, true, ◌&&◌, ◌*◌, ◌<◌, ◌≤◌, length};
ghost use Rattle.graph.specs.Basic.{all_below};
ghost use Rattle.graph.specs.State.{vertex_count};
ghost use Rattle.graph.specs.Layout.{e_of, rows_of, row, rising_to, state_of};
ghost use Rattle.graph.specs.Form.{Laid};
ghost use Rattle.graph.specs.Rows.{first_row};
ghost use Rattle.graph.specs.inner.Scans.{vertex_numbers};
ghost use Rattle.graph_tests.specs.inner.Rows.{VertexRows};
ghost use Rattle.graph_tests.specs.inner.Walk.{Firsts};
ghost use Rattle.block_rows.specs.inner.Rows.{RowPart};

use block_rows::{parts, row_words};
use graph::rows;

// A place of the row `at`. Places have 16 bits, so that few bytes are set to zero for them.
pub fn place(p: usize) -> u16
    requires { p ≤ 65535 }
    ensures { result ≡ p }
{
    p as u16
}

// Whether the numbers of vertex v are in range; the three lists are these rows.
fn vertex_numbers(b: &[i64], flags: &[i64], holder: &[i64], grandson: &[i64], v: usize) -> bool
    requires { Laid b.now × (v < vertex_count (state_of b.now)) × VertexRows b.now flags.now holder.now grandson.now }
    ensures { result ≡ vertex_numbers (state_of b.now) v }
{
    let c = rows::node_count(b);
    row_words::at_most(flags, v, 3)
        & row_words::at_most(holder, v, c)
        & row_words::at_most(grandson, v, c)
}

// Whether this is so of all vertices, and the firsts do not fall; where it is, the firsts go to `next`.
fn vertices_in(
    b: &[i64],
    flags: &[i64],
    holder: &[i64],
    grandson: &[i64],
    first: &[i64],
    next: &mut [u16],
) -> bool
    requires { Laid b.now × VertexRows b.now flags.now holder.now grandson.now
        × RowPart b.now first_row (vertex_count (state_of b.now)) first.now × (vertex_count (state_of b.now) ≤ length next.old) }
    ensures { (result
        ≡ all_below (vertex_numbers (state_of b.now)) (vertex_count (state_of b.now))
        && rising_to (row (rows_of b.now) first_row) (2 * e_of b.now))
        × (result ≡ true → Firsts b.now (vertex_count (state_of b.now)) next.new) }
{
    let n = rows::vertex_count(b);
    let m = rows::side_count(b);
    let mut a = 0;
    for v in 0..n {
        let x = vertex_numbers(b, flags, holder, grandson, v);
        if !(x & row_words::between(first, v, a, m)) {
            return false;
        }
        a = row_words::number(first, v);
        next[v] = place(a);
    }
    true
}

// The same of a block.
pub fn vertices_sound(b: &[i64], next: &mut [u16]) -> bool
    requires { Laid b.now × (vertex_count (state_of b.now) ≤ length next.old) }
    ensures { (result
        ≡ all_below (vertex_numbers (state_of b.now)) (vertex_count (state_of b.now))
        && rising_to (row (rows_of b.now) first_row) (2 * e_of b.now))
        × (result ≡ true → Firsts b.now (vertex_count (state_of b.now)) next.new) }
{
    let flags = parts::vertex_row(b, rows::FLAGS);
    let holder = parts::vertex_row(b, rows::VERTEX_HOLDER);
    let grandson = parts::vertex_row(b, rows::VERTEX_GRANDSON);
    let first = parts::vertex_row(b, rows::FIRST);
    vertices_in(b, flags, holder, grandson, first, next)
}
