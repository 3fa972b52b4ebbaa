// Replacing the lists of a node in the store. What must not move is left in its place.

ghost use Rattle.std.specs.Prelude.{ℕ, ◌+◌, ◌<◌, ◌≤◌, length, get_or, set};
ghost use Rattle.graph.specs.Rows.{store_row};
ghost use Rattle.graph.specs.State.{node_count, overgrown_of};
ghost use Rattle.graph.specs.Sound.{entries, entries_of};
ghost use Rattle.graph.specs.Word.{numbers_at, word_at};
ghost use Rattle.graph.specs.Layout.{state_of};
ghost use Rattle.graph.specs.Form.{Laid, Formed};
ghost use Rattle.graph.specs.inner.Form.{Becomes, Rowed};
ghost use Rattle.graph.specs.inner.Found.{Found};
ghost use Rattle.graph.specs.inner.Replace.{with_lists};
ghost use Rattle.graph.specs.inner.Lists.{start_word, store_of};
ghost use Rattle.store.specs.inner.Wrote.{Shifted, Filled, Copied};
ghost use Rattle.store.specs.inner.Store.{Resized, Stored, Moved, Replaceable};

use graph::{lists, rows, words};

// ---- stretches of the store
// Words are moved as they stand.

// The n words at `from` are copied to `to`; what is there already costs nothing.
fn move_words(b: &mut [i64], from: usize, to: usize, n: usize)
    requires { Laid b.old × (from + n ≤ (state_of b.old).store_limit) × (to + n ≤ (state_of b.old).store_limit) }
    ensures { Copied b.old b.new from to n }
{
    if n == 0 {
        return;
    }
    if from == to {
        return;
    }
    let p = rows::store_place(b, from);
    let q = rows::store_place(b, to);
    b.copy_within(p..p + n, q);
}

// The n words of t from q on are put into the store at `at`.
fn fill(b: &mut [i64], t: &[i64], q: usize, at: usize, n: usize)
    requires { Laid b.old × (q + n ≤ length t.now) × (at + n ≤ (state_of b.old).store_limit) }
    ensures { Filled b.old b.new t.now q at n }
{
    if n == 0 {
        return;
    }
    let a = rows::store_place(b, at);
    words::copy_each(&mut b[a..a + n], &t[q..q + n]);
}

// ---- starts

// The starts of the nodes from lo up to hi grow by add and shrink by sub.
fn shift_each(b: &mut [i64], lo: usize, hi: usize, add: usize, sub: usize)
    requires { Laid b.old × (lo ≤ hi) × (hi ≤ (state_of b.old).node_limit) × (add ≤ 65536)
        × ((p : ℕ) → lo ≤ p → p < hi → (sub ≤ start_word b.old p) × (start_word b.old p ≤ 65536)) }
    ensures { Shifted b.old b.new lo hi add sub }
{
    if hi <= lo {
        return;
    }
    let a = rows::node_place(b, rows::START, 0);
    for i in lo..hi {
        let x = words::word(b, a + i);
        words::put(b, a + i, x + add - sub);
    }
}

// The same, with nothing done where they stay.
fn shift_starts(b: &mut [i64], lo: usize, hi: usize, add: usize, sub: usize)
    requires { Laid b.old × (lo ≤ hi) × (hi ≤ (state_of b.old).node_limit) × (add ≤ 65536)
        × ((p : ℕ) → lo ≤ p → p < hi → (sub ≤ start_word b.old p) × (start_word b.old p ≤ 65536)) }
    ensures { Shifted b.old b.new lo hi add sub }
{
    if add != sub {
        shift_each(b, lo, hi, add, sub);
    }
}

// The starts behind node n, up to node c, are shifted for lists of k and o words in place of y in all, and the lengths of node n written.
fn put_sizes(b: &mut [i64], n: usize, c: usize, k: usize, o: usize, y: usize)
    requires { Laid b.old × (n < c) × (c ≤ (state_of b.old).node_limit) × (k + o ≤ 65536)
        × ((p : ℕ) → n + 1 ≤ p → p < c → (y ≤ start_word b.old p) × (start_word b.old p ≤ 65536)) }
    ensures { Resized b.old b.new n c k o y }
{
    shift_starts(b, n + 1, c, k + o, y);
    rows::put_node(b, rows::BOUNDARY_LENGTH, n, k);
    rows::put_node(b, rows::OVERGROWN_LENGTH, n, o);
}

// ---- the lists of a node

// The lists of a node as they stand in the store.
#[derive(Clone, Copy)]
struct Place {
    start: usize, // where they start
    boundary: usize, // how many words the boundary has
    length: usize, // how many words both have
    rest: usize, // how many words of other lists stand behind them
}

// What they become.
#[derive(Clone, Copy)]
struct Change {
    boundary: usize, // how many words of the scratch, from 0 on, are the boundary
    stays: usize, // how many words of the stack, the lowest, stay
    from: usize, // where in the scratch the words of the stack that come on top start
    pushed: usize, // how many these are
}

// From the start on, the lowest words of the stack move to `to`, and what stands behind the lists to `end`: first what the other would overwrite.
fn make_room(b: &mut [i64], p: Place, to: usize, stays: usize, end: usize)
    requires { Laid b.old × (p.boundary + stays ≤ p.length) × (to + stays ≤ end)
        × (p.start + p.length + p.rest ≤ (state_of b.old).store_limit)
        × (p.start + end + p.rest ≤ (state_of b.old).store_limit) × ((state_of b.old).store_limit ≤ 65536) }
    ensures { Moved b.old b.new p.start p.boundary p.length p.rest to stays end }
{
    if p.length < end {
        move_words(b, p.start + p.length, p.start + end, p.rest);
        move_words(b, p.start + p.boundary, p.start + to, stays);
    } else {
        move_words(b, p.start + p.boundary, p.start + to, stays);
        move_words(b, p.start + p.length, p.start + end, p.rest);
    }
}

// The lists become those of the change.
fn put_lists(b: &mut [i64], t: &[i64], p: Place, c: Change)
    requires { Laid b.old × (p.boundary + c.stays ≤ p.length) × (p.start + p.length + p.rest ≤ (state_of b.old).store_limit)
        × (p.start + (c.boundary + (c.stays + c.pushed)) + p.rest ≤ (state_of b.old).store_limit)
        × ((state_of b.old).store_limit ≤ 65536) × (c.boundary ≤ length t.now) × (c.from + c.pushed ≤ length t.now) }
    ensures { Stored b.old b.new t.now p.start p.boundary p.length p.rest
        c.boundary c.stays c.from c.pushed }
{
    make_room(b, p, c.boundary, c.stays, c.boundary + (c.stays + c.pushed));
    fill(b, t, 0, p.start, c.boundary);
    fill(b, t, c.from, p.start + c.boundary + c.stays, c.pushed);
}

// The lists of node n are replaced, where all of it is known to fit.
fn replace_at(b: &mut [i64], n: usize, t: &[i64], p: Place, c: Change)
    requires { Formed b.old
        × Replaceable b.old n p.start p.boundary p.length p.rest c.boundary c.stays c.pushed
        × (c.boundary ≤ length t.now) × (c.from + c.pushed ≤ length t.now) }
    ensures { Becomes b.old b.new
        (with_lists (state_of b.old) n (numbers_at t.now 0 c.boundary) c.stays
        (numbers_at t.now c.from c.pushed)) }
{
    let count = rows::node_count(b);
    put_lists(b, t, p, c);
    put_sizes(b, n, count, c.boundary, c.stays + c.pushed, p.length);
}

// The boundary of node n becomes the k numbers that stand in t from 0 on; of its overgrown stack the lowest m entries stay,
// and the o entries that stand in t from q on come on top, the top last.
pub fn replace_lists(b: &mut [i64], n: usize, t: &[i64], k: usize, m: usize, q: usize, o: usize)
    requires { Formed b.old × (n < node_count (state_of b.old)) × (k ≤ length t.now) × (q + o ≤ length t.now)
        × (m ≤ length (overgrown_of (state_of b.old) n))
        × (entries (state_of b.old) + (k + m + o) ≤ (state_of b.old).store_limit + entries_of (state_of b.old) n) }
    ensures { Becomes b.old b.new
        (with_lists (state_of b.old) n (numbers_at t.now 0 k) m (numbers_at t.now q o)) }
{
    let start = lists::start(b, n);
    let boundary = lists::boundary_len(b, n);
    let both = boundary + lists::overgrown_len(b, n);
    let rest = lists::entry_count(b) - (start + both);
    let p = Place {
        start,
        boundary,
        length: both,
        rest,
    };
    let c = Change {
        boundary: k,
        stays: m,
        from: q,
        pushed: o,
    };
    replace_at(b, n, t, p, c);
}
