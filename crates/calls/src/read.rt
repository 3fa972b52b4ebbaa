// Reading: the growth of every side, and the representative vertex of a node.

ghost use Rattle.std.specs.Prelude.{◌≡◌, ◌<◌, ◌≤◌, true, length};
ghost use Rattle.graph.specs.State.{side_count, node_count};
ghost use Rattle.graph.specs.Sound.{sound};
ghost use Rattle.graph.specs.Layout.{state_of};
ghost use Rattle.graph.specs.Form.{Formed};
ghost use Rattle.calls.specs.Reply.{placed};
ghost use Rattle.calls.specs.Calls.{growth_table, representative_vertex_of};

use graph::{node, rows, side, words};

// The growth of every side goes to the front of `table`.
pub fn read_table(b: &[i64], table: &mut [i64])
    requires { Formed b.now × (side_count (state_of b.now) ≤ length table.old) }
    ensures { table.new ≡ placed (growth_table (state_of b.now)) table.old }
{
    let m = rows::side_count(b);
    for s in 0..m {
        let g = side::growth(b, s);
        words::put(table, s, g);
    }
}

// The vertex of node n: its own, or that of its first member, which is numbered below n.
pub fn get_representative_vertex(b: &[i64], n: usize) -> usize
    requires { Formed b.now × (sound (state_of b.now) ≡ true) × (n < node_count (state_of b.now)) }
    ensures { result ≡ representative_vertex_of (state_of b.now) n }
{
    let v = rows::vertex_count(b);
    let x = node::class(b, n);
    if x < v {
        return x;
    }
    if node::is_removed(b, n) {
        0
    } else {
        get_representative_vertex(b, x - v)
    }
}
