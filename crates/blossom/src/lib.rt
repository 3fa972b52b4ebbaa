#![tactic(auto)]

// Insertion of a blossom.

ghost use Rattle.std.specs.Prelude.{◌≡◌, ◌≢◌, not, true, false, ◌&&◌, map, ◌+◌, ◌<◌, ltb, length};
ghost use Rattle.graph.specs.Basic.{fold, all, any, distinct};
ghost use Rattle.graph.specs.State.{node_count, boundary_of};
ghost use Rattle.graph.specs.Sound.{entries};
ghost use Rattle.graph.specs.Word.{to_nat};
ghost use Rattle.graph.specs.Layout.{state_of};
ghost use Rattle.graph.specs.Form.{Formed};
ghost use Rattle.graph.specs.inner.Form.{Becomes, sides_ok};
ghost use Rattle.pass.specs.Scratch.{scratch_of};
ghost use Rattle.refusal.specs.Refusal.{refusal_number};
ghost use Rattle.answers.specs.Outcome.{told};
ghost use Rattle.calls.specs.Refuse.{bad_node, in_blossom, entries_but, store_short};
ghost use Rattle.calls.specs.Insert.{no_circle, blossom_refusal, prepare_step, join_side, join_step, join_circle, insert_blossom};
ghost use Rattle.blossom.specs.inner.Circle.{Joinable, JoinedIn, joined_in};
ghost use Rattle.calls.specs.Keeps.{circle_keeps};
ghost use Rattle.calls.specs.inner.Reply.{RepliesInsert, Usable};

use answers::Answer;
use calls::refuse;
use graph::dual_node::DOWN;
use graph::{lists, node, rows, side, words};
use refusal::Refusal;

pub mod tested; // the insertion, and whether it keeps the block sound

// ---- what refuses it

// Whether some number of the circle is no node, or a removed one.
fn any_bad(b: &[i64], circle: &[i64]) -> bool
    requires { Formed b.now }
    ensures { result ≡ any (bad_node (state_of b.now)) (map to_nat circle.now) }
{
    circle
        .iter()
        .any(|m| refuse::bad_node(b, words::to_nat(*m)))
}

// Whether some member of the circle lies in a blossom.
fn any_inner(b: &[i64], circle: &[i64]) -> bool
    requires { Formed b.now × (any (bad_node (state_of b.now)) (map to_nat circle.now) ≡ false) }
    ensures { result ≡ any (in_blossom (state_of b.now)) (map to_nat circle.now) }
{
    circle
        .iter()
        .any(|m| refuse::in_blossom(b, words::to_nat(*m)))
}

// Whether some number of the circle stands twice: each that was met is marked.
fn repeats(circle: &[i64]) -> bool
    requires { all (λ m. ltb m 1024) (map to_nat circle.now) ≡ true }
    ensures { result ≡ not (distinct (map to_nat circle.now)) }
{
    let mut marks = [0u8; 1024];
    for word in circle {
        let m = words::to_nat(*word);
        if marks[m] == 1 {
            return true;
        }
        marks[m] = 1;
    }
    false
}

// Whether the circle has an even count, under 3 or above 63, or a repeat.
fn no_circle(circle: &[i64]) -> bool
    requires { all (λ m. ltb m 1024) (map to_nat circle.now) ≡ true }
    ensures { result ≡ no_circle (map to_nat circle.now) }
{
    if (circle.len() % 2 == 0) | (circle.len() < 3) | (63 < circle.len()) {
        true
    } else {
        repeats(circle)
    }
}

// How many entries the lists of the circle's members have.
fn entries_in(b: &[i64], circle: &[i64]) -> usize
    requires { Formed b.now × (any (bad_node (state_of b.now)) (map to_nat circle.now) ≡ false) × (distinct (map to_nat circle.now) ≡ true) }
    ensures { result + entries_but (state_of b.now) (map to_nat circle.now) ≡ entries (state_of b.now) }
{
    let mut sum = 0;
    for word in circle {
        let m = words::to_nat(*word);
        sum += refuse::entries_of(b, m);
    }
    sum
}

// Whether the store is too small for the lists of the members and of the blossom, each of which may come to have 2 E + V entries.
fn store_short_circle(b: &[i64], circle: &[i64]) -> bool
    requires { Formed b.now × (any (bad_node (state_of b.now)) (map to_nat circle.now) ≡ false) × (distinct (map to_nat circle.now) ≡ true) }
    ensures { result ≡ store_short (state_of b.now) (map to_nat circle.now) (length (map to_nat circle.now) + 1) }
{
    let used = lists::entry_count(b);
    let own = entries_in(b, circle);
    refuse::over_store(b, used - own, circle.len() + 1)
}

// What refuses a blossom of the circle in grow state x.
pub fn blossom_refusal(b: &[i64], x: usize, circle: &[i64]) -> Result<(), Refusal>
    requires { Formed b.now }
    ensures { refusal_number result ≡ blossom_refusal (state_of b.now) x (map to_nat circle.now) }
{
    if (node::SHRINK < x) | any_bad(b, circle) {
        return Err(Refusal::NoSuch);
    }
    if any_inner(b, circle) {
        return Err(Refusal::InBlossom);
    }
    if no_circle(circle) {
        return Err(Refusal::NoCircle);
    }
    if rows::node_limit(b) <= rows::node_count(b) {
        return Err(Refusal::NoNodeLeft);
    }
    if store_short_circle(b, circle) {
        return Err(Refusal::StoreShort);
    }
    Ok(())
}

// ---- the members

// Each member of the circle is prepared for shrinking; where it is asked for, whether a sound state was certainly left sound.
fn prepare_members(b: &mut [i64], t: &mut [i64], circle: &[i64], ask: bool) -> bool
    requires { Formed b.old × (t.old ≡ scratch_of (state_of b.old)) × Joinable (state_of b.old) (map to_nat circle.now) }
    ensures { Becomes b.old b.new
        (fold prepare_step (state_of b.old) (map to_nat circle.now))
        × (t.new ≡ t.old) × Joinable (state_of b.new) (map to_nat circle.now)
        × (result ≡ (ask && circle_keeps (state_of b.old) (map to_nat circle.now))) }
{
    let mut kept = true;
    for word in circle {
        let m = words::to_nat(*word);
        let p = prepare_tested::prepare_asked(b, t, m, DOWN, ask);
        kept = kept & p.kept;
    }
    ask & kept
}

// The sides that member m holds join the boundary of blossom n, behind the k that stand at the front of t; how many they are then.
fn join_sides(b: &mut [i64], t: &mut [i64], m: usize, n: usize, k: usize) -> usize
    requires { JoinedIn b.old b.old t.old n k (joined_in b.old t.old k) × (m < node_count (state_of b.old))
        × (sides_ok (state_of b.old) m ≡ true) × (n < 1024) × (m ≢ n) }
    ensures { JoinedIn b.old b.new t.new n result
        (fold (join_side n m) (joined_in b.old t.old k) (boundary_of (state_of b.old) m)) }
{
    let l = lists::boundary_len(b, m);
    let mut q = k;
    for i in 0..l {
        let s = lists::boundary_side(b, m, i);
        if side::holder(b, s) == m + 1 {
            side::set_holder(b, s, n + 1);
            words::put(t, q, s);
            q += 1;
        }
    }
    q
}

// Member m is joined to blossom n: its sides, and it becomes Stay and lies in n.
fn join_member(b: &mut [i64], t: &mut [i64], m: usize, n: usize, k: usize) -> usize
    requires { JoinedIn b.old b.old t.old n k (joined_in b.old t.old k) × (m < node_count (state_of b.old))
        × (sides_ok (state_of b.old) m ≡ true) × (n < 1024) × (m ≢ n) }
    ensures { JoinedIn b.old b.new t.new n result (join_step n (joined_in b.old t.old k) m) }
{
    let q = join_sides(b, t, m, n, k);
    node::set_grow_state(b, m, node::STAY);
    node::set_parent(b, m, n + 1);
    q
}

// The members of the circle are joined to blossom n, whose sides are written at the front of t; how many they are.
fn join_members(b: &mut [i64], t: &mut [i64], circle: &[i64], n: usize) -> usize
    requires { Formed b.old × (t.old ≡ scratch_of (state_of b.old))
        × Joinable (state_of b.old) (map to_nat circle.now) × (n ≡ node_count (state_of b.old)) }
    ensures { JoinedIn b.old b.new t.new n result
        (fold (join_step n) (joined_in b.old t.old 0) (map to_nat circle.now))
        × Joinable (state_of b.new) (map to_nat circle.now) }
{
    let mut k = 0;
    for word in circle {
        let m = words::to_nat(*word);
        k = join_member(b, t, m, n, k);
    }
    k
}

// How many sides a circle has joined, and whether the preparation of its members certainly left a sound state sound.
#[derive(Clone, Copy)]
pub struct CircleSides {
    pub count: usize,
    pub kept: bool,
}

// The members of the circle are prepared, then joined to the next node n.
pub fn join_circle(b: &mut [i64], t: &mut [i64], circle: &[i64], n: usize, ask: bool) -> CircleSides
    requires { Formed b.old × (t.old ≡ scratch_of (state_of b.old))
        × Joinable (state_of b.old) (map to_nat circle.now) × (n ≡ node_count (state_of b.old)) }
    ensures { JoinedIn b.old b.new t.new n result.count
        (join_circle (state_of b.old) (map to_nat circle.now))
        × Joinable (state_of b.new) (map to_nat circle.now)
        × (result.kept ≡ (ask && circle_keeps (state_of b.old) (map to_nat circle.now))) }
{
    let kept = prepare_members(b, t, circle, ask);
    let count = join_members(b, t, circle, n);
    CircleSides { count, kept }
}

// ---- the blossom

// The next node is a blossom of the circle, in grow state x.
pub fn insert_blossom(
    b: &mut [i64],
    t: &mut [i64],
    x: usize,
    circle: &[i64],
) -> Result<Answer, Refusal>
    requires { Usable b.old t.old }
    ensures { RepliesInsert b.old b.new (told result)
        (insert_blossom (state_of b.old) x (map to_nat circle.now))
        × (t.new ≡ t.old) }
{
    tested::insert_blossom(b, t, x, circle, false).answer
}
