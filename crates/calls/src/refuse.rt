// What refuses a call on a node, on a block in form.

ghost use Rattle.std.specs.Prelude.{◌≡◌, ◌+◌, ◌*◌, ◌<◌, ◌≤◌, ◌&&◌, [], ◌∷◌, nat_lt};
ghost use Rattle.graph.specs.State.{vertex_count, side_count, node_count};
ghost use Rattle.graph.specs.Sound.{entries_of};
ghost use Rattle.graph.specs.Layout.{state_of};
ghost use Rattle.graph.specs.Form.{Formed};
ghost use Rattle.refusal.specs.Refusal.{refusal_number};
ghost use Rattle.calls.specs.Refuse.{bad_node, in_blossom, store_short, node_refusal};

use graph::{lists, node, rows};
use refusal::Refusal;

// Whether n is no node, or a removed one.
pub fn bad_node(b: &[i64], n: usize) -> bool
    requires { Formed b.now }
    ensures { result ≡ bad_node (state_of b.now) n }
{
    if rows::node_count(b) <= n {
        true
    } else {
        node::is_removed(b, n)
    }
}

// Whether node n lies in a blossom.
pub fn in_blossom(b: &[i64], n: usize) -> bool
    requires { Formed b.now × (n < node_count (state_of b.now)) }
    ensures { result ≡ in_blossom (state_of b.now) n }
{
    node::parent(b, n) != 0
}

// How many entries the lists of node n have.
pub fn entries_of(b: &[i64], n: usize) -> usize
    requires { Formed b.now × (n < node_count (state_of b.now)) }
    ensures { (result ≡ entries_of (state_of b.now) n) × (result ≤ 131072) }
{
    lists::boundary_len(b, n) + lists::overgrown_len(b, n)
}

// Whether the store is too small for `used` entries and k times 2 E + V.
pub fn over_store(b: &[i64], used: usize, k: usize) -> bool
    requires { Formed b.now × (used ≤ 65536) × (k ≤ 1025) }
    ensures { result
        ≡ nat_lt (state_of b.now).store_limit
        (used + k * (side_count (state_of b.now) + vertex_count (state_of b.now))) }
{
    let m = rows::side_count(b);
    let v = rows::vertex_count(b);
    rows::store_limit(b) < used + k * (m + v)
}

// Whether the store is too small for the lists of node n, which may come to have 2 E + V entries.
pub fn store_short(b: &[i64], n: usize) -> bool
    requires { Formed b.now × (n < node_count (state_of b.now)) }
    ensures { result ≡ store_short (state_of b.now) (n ∷ []) 1 }
{
    let used = lists::entry_count(b);
    let own = entries_of(b, n);
    over_store(b, used - own, 1)
}

// The same for a node that is still to come.
pub fn store_short_new(b: &[i64]) -> bool
    requires { Formed b.now }
    ensures { result ≡ store_short (state_of b.now) [] 1 }
{
    let used = lists::entry_count(b);
    over_store(b, used, 1)
}

// What refuses a call on node n; `wrong` says that some other number is not listed, `prepares` that the call prepares the node.
pub fn node_refusal(b: &[i64], n: usize, wrong: bool, prepares: bool) -> Result<(), Refusal>
    requires { Formed b.now }
    ensures { refusal_number result ≡ node_refusal (state_of b.now) n wrong (prepares && store_short (state_of b.now) (n ∷ []) 1) }
{
    if bad_node(b, n) | wrong {
        return Err(Refusal::NoSuch);
    }
    if in_blossom(b, n) {
        return Err(Refusal::InBlossom);
    }
    if prepares {
        if store_short(b, n) {
            return Err(Refusal::StoreShort);
        }
    }
    Ok(())
}
