// The soundness test of a block of the right length, in time linear in the block.

ghost use Rattle.std.specs.Prelude.{◌≡◌, true, ◌&&◌, ◌*◌};
ghost use Rattle.graph.specs.Basic.{all_below};
ghost use Rattle.graph.specs.State.{vertex_count, edge_count};
ghost use Rattle.graph.specs.Sound.{edge_sound, vertex_sound, sound, state_sound};
ghost use Rattle.graph.specs.Layout.{e_of, rows_of, row, rising_to, packed, state_of, sized, block_sound};
ghost use Rattle.graph.specs.Form.{Laid, Listed};
ghost use Rattle.graph.specs.inner.SidesAt.{Rising};
ghost use Rattle.graph.specs.Rows.{first_row};

use graph::{rows, words};

// Whether the state of a block is sound, where its lists stand in order, and its edges and vertices are sound.
fn state_sound(b: &[i64]) -> bool
    requires { Laid b.now × Listed b.now × (all_below (edge_sound (state_of b.now)) (edge_count (state_of b.now)) ≡ true)
        × (all_below (vertex_sound (state_of b.now)) (vertex_count (state_of b.now)) ≡ true) }
    ensures { result ≡ sound (state_of b.now) }
{
    if graph_tests::sides::sides_sound(b) {
        if node_tests::nodes::nodes_sound(b) {
            node_tests::active::active_sound(b) & (rows::reweighted(b) <= 1)
        } else {
            false
        }
    } else {
        false
    }
}

// Whether it is and no removed node has anything.
fn whole_sound(b: &[i64]) -> bool
    requires { Laid b.now × Listed b.now × Rising b.now × (all_below (edge_sound (state_of b.now)) (edge_count (state_of b.now)) ≡ true)
        × (all_below (vertex_sound (state_of b.now)) (vertex_count (state_of b.now)) ≡ true) }
    ensures { result ≡ state_sound (state_of b.now) }
{
    if state_sound(b) {
        node_tests::removed::removed_sound(b)
    } else {
        false
    }
}

// Whether the firsts do not fall and the state is sound, where the lists stand in order.
fn listed_sound(b: &[i64]) -> bool
    requires { Laid b.now × Listed b.now }
    ensures { result ≡ rising_to (row (rows_of b.now) first_row) (2 * e_of b.now) && state_sound (state_of b.now) }
{
    if graph_tests::graph_sound(b) {
        whole_sound(b)
    } else {
        false
    }
}

// Whether the lists stand in order and the rest is so, where there are no more nodes and active nodes than N.
fn laid_sound(b: &[i64]) -> bool
    requires { Laid b.now }
    ensures { result
        ≡ packed b.now && rising_to (row (rows_of b.now) first_row) (2 * e_of b.now)
        && state_sound (state_of b.now) }
{
    if node_tests::node_lists::packed(b) {
        listed_sound(b)
    } else {
        false
    }
}

// Whether a block is sound.
pub fn sound(b: &[i64]) -> bool
    requires { sized b.now ≡ true }
    ensures { result ≡ block_sound b.now }
{
    let c = words::word(b, 4);
    let a = words::word(b, 5);
    let n = words::word(b, 2);
    if (c <= n) & (a <= n) {
        laid_sound(b)
    } else {
        false
    }
}
