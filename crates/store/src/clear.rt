// Clearing a block: the graph stays with its original weights, nothing is held and nothing is grown, there is no defect and no node.

ghost use Rattle.std.specs.Prelude.{map, ◌+◌, ◌%◌, ◌<◌, ◌≤◌, length};
ghost use Rattle.graph.specs.Layout.{rows_of, row, state_of};
ghost use Rattle.graph.specs.Form.{Laid, Formed};
ghost use Rattle.graph.specs.inner.Form.{Rowed};
ghost use Rattle.graph.specs.Opening.{zeros, Cleared};
ghost use Rattle.graph.specs.inner.Recounted.{ActiveRecounted, Recounted};
ghost use Rattle.store.specs.inner.Store.{cleared_sides, cleared_vertices, Rewritten};
ghost use Rattle.graph.specs.Rows.{flags_row, end_row, weight_row, original_row};

use graph::{rows, words};

// The number of nodes becomes x.
pub fn put_node_count(b: &mut [i64], x: usize)
    requires { Laid b.old × (x ≤ (state_of b.old).node_limit) }
    ensures { Recounted b.old b.new x }
{
    words::put(b, 4, x);
}

// The active list ends behind its first x places.
pub fn put_active_count(b: &mut [i64], x: usize)
    requires { Laid b.old × (x ≤ (state_of b.old).node_limit) }
    ensures { ActiveRecounted b.old b.new x }
{
    words::put(b, 5, x);
}

// Rows are gone over from their first place on, so that a word costs no look at the header.

// A row over vertices becomes zero.
fn zero_vertices(b: &mut [i64], k: usize)
    requires { Laid b.old × (k < 4) }
    ensures { Rowed (flags_row + k) b.old b.new (zeros (length (row (rows_of b.old) (flags_row + k)))) }
{
    let m = rows::vertex_count(b);
    let a = rows::vertex_place(b, k, 0);
    b[a..a + m].fill(0);
}

// A row over sides becomes zero.
fn zero_sides(b: &mut [i64], k: usize)
    requires { Laid b.old × (k < 5) }
    ensures { Rowed (end_row + k) b.old b.new (zeros (length (row (rows_of b.old) (end_row + k)))) }
{
    let m = rows::side_count(b);
    let a = rows::side_place(b, k, 0);
    b[a..a + m].fill(0);
}

// Of the flags of each vertex, the virtual one stays.
fn drop_defects(b: &mut [i64])
    requires { Laid b.old }
    ensures { Rowed flags_row b.old b.new (map (λ x. x % 2) (row (rows_of b.old) flags_row)) }
{
    let m = rows::vertex_count(b);
    let a = rows::vertex_place(b, rows::FLAGS, 0);
    for w in &mut b[a..a + m] {
        *w = words::to_word(words::to_nat(*w) % 2);
    }
}

// Every edge has its original weight again.
fn restore_weights(b: &mut [i64])
    requires { Laid b.old }
    ensures { Rowed weight_row b.old b.new (row (rows_of b.old) original_row) }
{
    let m = rows::edge_count(b);
    let a = rows::edge_place(b, 0);
    let o = rows::original_place(b, 0);
    b.copy_within(o..o + m, a);
}

// The rows over vertices: no defect, nothing held.
fn clear_vertices(b: &mut [i64])
    requires { Laid b.old }
    ensures { Rewritten b.old b.new (cleared_vertices (rows_of b.old)) }
{
    drop_defects(b);
    zero_vertices(b, 1);
    zero_vertices(b, 2);
}

// The rows over sides: nothing grown, nothing held.
fn clear_sides(b: &mut [i64])
    requires { Laid b.old }
    ensures { Rewritten b.old b.new (cleared_sides (rows_of b.old)) }
{
    zero_sides(b, 1);
    zero_sides(b, 2);
    zero_sides(b, 3);
}

// The block is cleared.
pub fn clear(b: &mut [i64])
    requires { Formed b.old }
    ensures { Cleared b.old b.new }
{
    put_node_count(b, 0);
    put_active_count(b, 0);
    rows::put_reweighted(b, 0);
    restore_weights(b);
    clear_vertices(b);
    clear_sides(b);
}
