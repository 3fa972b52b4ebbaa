#![tactic(auto)]

// The soundness test of the graph, and of the numbers that are stored of each vertex and each side, in three loops.

ghost use Rattle.std.specs.Prelude.{◌≡◌, ◌&&◌, ◌*◌};
ghost use Rattle.graph.specs.Basic.{all_below};
ghost use Rattle.graph.specs.State.{vertex_count, edge_count};
ghost use Rattle.graph.specs.Sound.{edge_sound, vertex_sound};
ghost use Rattle.graph.specs.Layout.{e_of, rows_of, row, rising_to, state_of};
ghost use Rattle.graph.specs.Form.{Laid};
ghost use Rattle.graph.specs.Rows.{first_row};

pub mod edges; // the edges, and the sides at each vertex
pub mod sides; // the numbers of each side
pub mod vertices; // the numbers of each vertex, and where its sides begin

// Whether the firsts do not fall, and all edges and all vertices are sound.
pub fn graph_sound(b: &[i64]) -> bool
    requires { Laid b.now }
    ensures { result
        ≡ rising_to (row (rows_of b.now) first_row) (2 * e_of b.now)
        && (all_below (edge_sound (state_of b.now)) (edge_count (state_of b.now))
        && all_below (vertex_sound (state_of b.now)) (vertex_count (state_of b.now))) }
{
    let mut next = [0u16; 1024];
    if vertices::vertices_sound(b, &mut next) {
        edges::wired(b, &mut next)
    } else {
        false
    }
}
