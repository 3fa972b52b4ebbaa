// The soundness test of the nodes' lists: where they stand in the store, and that they hold sides, and vertices with amounts.

ghost use Rattle.std.specs.Prelude.{◌≡◌, true, ◌&&◌, ◌+◌, ◌<◌, ◌≤◌, ltb, length, get_or, take};
ghost use Rattle.graph.specs.Basic.{all};
ghost use Rattle.graph.specs.State.{side_count, node_count, boundary_of, overgrown_of};
ghost use Rattle.graph.specs.Sound.{over_sound};
ghost use Rattle.graph.specs.Layout.{overgrown_from, state_of, fits_at, packed};
ghost use Rattle.graph.specs.Rows.{store_row};
ghost use Rattle.graph.specs.Form.{Laid, Listed};
ghost use Rattle.graph.specs.inner.Form.{sides_ok};
ghost use Rattle.graph.specs.inner.Lists.{start_word, store_of};
ghost use Rattle.block_rows.specs.inner.Rows.{RowPart};
ghost use Rattle.node_tests.specs.inner.Four.{four};

use block_rows::row_words;
use graph::{lists, rows};

// The greatest entry of an overgrown stack: 1,024 * 1,000,000,000 + 1,023.
const MAX_ENTRY: usize = 1024000001023;

// ---- where the lists stand

// Whether lists that start at s and have k and o entries start at a and end within l.
fn fits_at(a: usize, l: usize, s: usize, k: usize, o: usize) -> bool
    requires { (a ≤ 65536) × (l ≤ 65536) }
    ensures { result ≡ fits_at a l s k o }
{
    if (s == a) & (k <= l) & (o <= l) {
        a + k + o <= l
    } else {
        false
    }
}

// Whether the lists of the nodes stand one after another within the store.
pub fn packed(b: &[i64]) -> bool
    requires { Laid b.now }
    ensures { result ≡ packed b.now }
{
    let c = rows::node_count(b);
    let l = rows::store_limit(b);
    let mut a = 0;
    for n in 0..c {
        let s = rows::node_word(b, rows::START, n);
        let k = rows::node_word(b, rows::BOUNDARY_LENGTH, n);
        let o = rows::node_word(b, rows::OVERGROWN_LENGTH, n);
        if !fits_at(a, l, s, k, o) {
            return false;
        }
        a = a + k + o;
    }
    true
}

// ---- the boundary

// Where entry i of the boundary of node n stands in the store, where its lists start at a.
pub fn side_place(b: &[i64], n: usize, a: usize, i: usize) -> usize
    requires { Laid b.now × Listed b.now × (n < node_count (state_of b.now)) × (i < length (boundary_of (state_of b.now) n))
        × (a ≡ start_word b.now n) }
    ensures { (get_or (store_of b.now) result 0 ≡ get_or (boundary_of (state_of b.now) n) i 0)
        × (result < (state_of b.now).store_limit) }
{
    a + i
}

// Whether that entry is a side; `store` is the list store.
pub fn is_side(b: &[i64], store: &[i64], n: usize, a: usize, i: usize) -> bool
    requires { Laid b.now × Listed b.now × (n < node_count (state_of b.now)) × (i < length (boundary_of (state_of b.now) n))
        × RowPart b.now store_row (state_of b.now).store_limit store.now × (a ≡ start_word b.now n) }
    ensures { result ≡ ltb (get_or (boundary_of (state_of b.now) n) i 0) (side_count (state_of b.now)) }
{
    let p = side_place(b, n, a, i);
    let m = rows::side_count(b);
    // With this the compiler knows that m is not negative as a word, and makes one test of two.
    if m <= 8192 {
        row_words::below(store, p, m)
    } else {
        false
    }
}

// Whether entry i and the three behind it are sides. Four at a time take less time for each.
fn four_sides(b: &[i64], store: &[i64], n: usize, a: usize, i: usize) -> bool
    requires { Laid b.now × Listed b.now × (n < node_count (state_of b.now)) × (i ≤ 65536) × (i + 3 < length (boundary_of (state_of b.now) n))
        × RowPart b.now store_row (state_of b.now).store_limit store.now × (a ≡ start_word b.now n) }
    ensures { result ≡ four (λ s. ltb s (side_count (state_of b.now))) (boundary_of (state_of b.now) n) i }
{
    is_side(b, store, n, a, i)
        & is_side(b, store, n, a, i + 1)
        & is_side(b, store, n, a, i + 2)
        & is_side(b, store, n, a, i + 3)
}

// Whether the boundary of node n holds sides, where its first j entries are some.
fn sides_from(b: &[i64], store: &[i64], n: usize, a: usize, j: usize) -> bool
    requires { Laid b.now × Listed b.now × (n < node_count (state_of b.now))
        × RowPart b.now store_row (state_of b.now).store_limit store.now × (a ≡ start_word b.now n)
        × (all (λ s. ltb s (side_count (state_of b.now))) (take j (boundary_of (state_of b.now) n)) ≡ true) }
    ensures { result ≡ sides_ok (state_of b.now) n }
{
    let k = lists::boundary_len(b, n);
    for i in j..k {
        if !is_side(b, store, n, a, i) {
            return false;
        }
    }
    true
}

// Whether the boundary of node n holds sides.
fn boundary_sound(b: &[i64], store: &[i64], n: usize) -> bool
    requires { Laid b.now × Listed b.now × (n < node_count (state_of b.now))
        × RowPart b.now store_row (state_of b.now).store_limit store.now }
    ensures { result ≡ sides_ok (state_of b.now) n }
{
    let a = lists::start(b, n);
    let k = lists::boundary_len(b, n);
    let fours = k / 4;
    for i in 0..fours {
        if !four_sides(b, store, n, a, 4 * i) {
            return false;
        }
    }
    sides_from(b, store, n, a, 4 * fours)
}

// ---- the overgrown stack

// Where entry i from the top of the overgrown stack of node n stands in the store.
pub fn entry_place(b: &[i64], n: usize, i: usize) -> usize
    requires { Laid b.now × Listed b.now × (n < node_count (state_of b.now)) × (i < length (overgrown_of (state_of b.now) n)) }
    ensures { (overgrown_from (get_or (store_of b.now) result 0) ≡ get_or (overgrown_of (state_of b.now) n) i (overgrown_from 0))
        × (result < (state_of b.now).store_limit) }
{
    let a = lists::start(b, n);
    let k = lists::boundary_len(b, n);
    let o = lists::overgrown_len(b, n);
    a + k + (o - 1 - i)
}

// Whether that entry is a vertex with an amount; `store` is the list store.
pub fn entry_sound(b: &[i64], store: &[i64], n: usize, i: usize) -> bool
    requires { Laid b.now × Listed b.now × (n < node_count (state_of b.now)) × (i < length (overgrown_of (state_of b.now) n))
        × RowPart b.now store_row (state_of b.now).store_limit store.now }
    ensures { result ≡ over_sound (state_of b.now) (get_or (overgrown_of (state_of b.now) n) i (overgrown_from 0)) }
{
    let p = entry_place(b, n, i);
    if row_words::at_most(store, p, MAX_ENTRY) {
        row_words::number(store, p) % 1024 < rows::vertex_count(b)
    } else {
        false
    }
}

// Whether the overgrown stack of node n holds vertices with amounts.
fn overgrown_sound(b: &[i64], store: &[i64], n: usize) -> bool
    requires { Laid b.now × Listed b.now × (n < node_count (state_of b.now))
        × RowPart b.now store_row (state_of b.now).store_limit store.now }
    ensures { result ≡ all (over_sound (state_of b.now)) (overgrown_of (state_of b.now) n) }
{
    let k = lists::overgrown_len(b, n);
    for i in 0..k {
        if !entry_sound(b, store, n, i) {
            return false;
        }
    }
    true
}

// Whether both lists of node n are so.
pub fn lists_sound(b: &[i64], store: &[i64], n: usize) -> bool
    requires { Laid b.now × Listed b.now × (n < node_count (state_of b.now))
        × RowPart b.now store_row (state_of b.now).store_limit store.now }
    ensures { result ≡ sides_ok (state_of b.now) n && all (over_sound (state_of b.now)) (overgrown_of (state_of b.now) n) }
{
    if boundary_sound(b, store, n) {
        overgrown_sound(b, store, n)
    } else {
        false
    }
}
