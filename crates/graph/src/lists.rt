// Reading the lists of a node: its boundary and its overgrown stack, which stand in the store one behind the other.

ghost use Rattle.std.specs.Prelude.{◌≡◌, true, map, ◌<◌, ◌≤◌, length, get_or};
ghost use Rattle.graph.specs.State.{side_count, node_count, boundary_of, overgrown_of};
ghost use Rattle.graph.specs.Sound.{entries};
ghost use Rattle.graph.specs.Word.{to_nat, word_limit};
ghost use Rattle.graph.specs.Layout.{overgrown_from, state_of};
ghost use Rattle.graph.specs.Form.{Laid, Listed};
ghost use Rattle.graph.specs.inner.Form.{sides_ok};
ghost use Rattle.graph.specs.inner.Lists.{start_word};

use crate::rows;

// Where the lists of node n begin in the store.
pub fn start(b: &[i64], n: usize) -> usize
    requires { Laid b.now × Listed b.now × (n < node_count (state_of b.now)) }
    ensures { (result ≡ start_word b.now n) × (result ≤ 65536) }
{
    rows::node_word(b, rows::START, n)
}

// ---- the boundary

// How many sides the boundary of node n has.
pub fn boundary_len(b: &[i64], n: usize) -> usize
    requires { Laid b.now × Listed b.now × (n < node_count (state_of b.now)) }
    ensures { (result ≡ length (boundary_of (state_of b.now) n)) × (result ≤ 65536) }
{
    rows::node_word(b, rows::BOUNDARY_LENGTH, n)
}

// Number i of the boundary of node n.
pub fn boundary_word(b: &[i64], n: usize, i: usize) -> usize
    requires { Laid b.now × Listed b.now × (n < node_count (state_of b.now)) × (i < length (boundary_of (state_of b.now) n)) }
    ensures { (result ≡ get_or (boundary_of (state_of b.now) n) i 0) × (result < word_limit) }
{
    let a = start(b, n);
    rows::store_word(b, a + i)
}

// The same where the boundary is known to hold sides.
pub fn boundary_side(b: &[i64], n: usize, i: usize) -> usize
    requires { Laid b.now × Listed b.now × (n < node_count (state_of b.now)) × (sides_ok (state_of b.now) n ≡ true)
        × (i < length (boundary_of (state_of b.now) n)) }
    ensures { (result ≡ get_or (boundary_of (state_of b.now) n) i 0) × (result < side_count (state_of b.now)) }
{
    boundary_word(b, n, i)
}

// The boundary of node n, as a part of the block.
pub fn boundary(b: &[i64], n: usize) -> &[i64]
    requires { Laid b.now × Listed b.now × (n < node_count (state_of b.now)) }
    ensures { map to_nat result.now ≡ boundary_of (state_of b.now) n }
{
    let a = b.len() - rows::edge_count(b) - rows::node_limit(b) - rows::store_limit(b)
        + start(b, n);
    let e = a + boundary_len(b, n);
    &b[a..e]
}

// ---- the overgrown stack

// How many entries the overgrown stack of node n has.
pub fn overgrown_len(b: &[i64], n: usize) -> usize
    requires { Laid b.now × Listed b.now × (n < node_count (state_of b.now)) }
    ensures { (result ≡ length (overgrown_of (state_of b.now) n)) × (result ≤ 65536) }
{
    rows::node_word(b, rows::OVERGROWN_LENGTH, n)
}

// Entry i from the top of the overgrown stack of node n, as its word.
pub fn overgrown_word(b: &[i64], n: usize, i: usize) -> usize
    requires { Laid b.now × Listed b.now × (n < node_count (state_of b.now)) × (i < length (overgrown_of (state_of b.now) n)) }
    ensures { (overgrown_from result ≡ get_or (overgrown_of (state_of b.now) n) i (overgrown_from 0)) × (result < word_limit) }
{
    let a = start(b, n);
    let k = boundary_len(b, n);
    let o = overgrown_len(b, n);
    rows::store_word(b, a + k + (o - 1 - i))
}

// The vertex of entry i from the top of the overgrown stack of node n.
pub fn overgrown_vertex(b: &[i64], n: usize, i: usize) -> usize
    requires { Laid b.now × Listed b.now × (n < node_count (state_of b.now)) × (i < length (overgrown_of (state_of b.now) n)) }
    ensures { (result ≡ (get_or (overgrown_of (state_of b.now) n) i (overgrown_from 0)).vertex) × (result < 1024) }
{
    overgrown_word(b, n, i) % 1024
}

// Its amount.
pub fn overgrown_amount(b: &[i64], n: usize, i: usize) -> usize
    requires { Laid b.now × Listed b.now × (n < node_count (state_of b.now)) × (i < length (overgrown_of (state_of b.now) n)) }
    ensures { (result ≡ (get_or (overgrown_of (state_of b.now) n) i (overgrown_from 0)).amount) × (result < 9007199254740992) }
{
    overgrown_word(b, n, i) / 1024
}

// ---- all lists

// How many entries the lists of all nodes have.
pub fn entry_count(b: &[i64]) -> usize
    requires { Laid b.now × Listed b.now }
    ensures { (result ≡ entries (state_of b.now)) × (result ≤ (state_of b.now).store_limit) }
{
    let c = rows::node_count(b);
    if c == 0 {
        return 0;
    }
    let a = start(b, c - 1);
    let k = boundary_len(b, c - 1);
    let o = overgrown_len(b, c - 1);
    a + k + o
}
