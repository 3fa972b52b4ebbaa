// What is stored of an edge, and whether a change of weights stands.

ghost use Rattle.std.specs.Prelude.{◌≡◌, ◌<◌, ◌≤◌};
ghost use Rattle.graph.specs.State.{edge_count, weight_at, with_edge_weight, with_reweighted};
ghost use Rattle.graph.specs.Layout.{state_of};
ghost use Rattle.graph.specs.Form.{Formed};
ghost use Rattle.graph.specs.inner.Form.{Becomes};
ghost use Rattle.graph.specs.Word.{word_limit};

use crate::rows;

// The weight of edge i.
pub fn weight(b: &[i64], i: usize) -> usize
    requires { Formed b.now × (i < edge_count (state_of b.now)) }
    ensures { (result ≡ weight_at (state_of b.now) i) × (result ≤ 1000000) }
{
    rows::edge_word(b, i)
}

// Edge i takes the weight x; its original weight stays.
pub fn set_weight(b: &mut [i64], i: usize, x: usize)
    requires { Formed b.old × (i < edge_count (state_of b.old)) × (x ≤ 1000000) }
    ensures { Becomes b.old b.new (with_edge_weight (state_of b.old) i x) }
{
    rows::put_edge(b, i, x);
}

// The mark of changed weights becomes x.
pub fn set_reweighted(b: &mut [i64], x: usize)
    requires { Formed b.old × (x < word_limit) }
    ensures { Becomes b.old b.new (with_reweighted (state_of b.old) x) }
{
    rows::put_reweighted(b, x);
}
