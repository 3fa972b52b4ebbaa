// A growing pass over a node: it takes the free vertices behind full boundary edges.

ghost use Rattle.std.specs.Prelude.{◌≡◌, true, ◌+◌, ◌*◌, ◌<◌, ◌≤◌, length};
ghost use Rattle.graph.specs.Basic.{any};
ghost use Rattle.graph.specs.State.{opposite, side_count, node_count, grandson_at, boundary_of, overgrown_of, held_side};
ghost use Rattle.graph.specs.Sound.{entries, entries_of};
ghost use Rattle.graph.specs.Layout.{state_of};
ghost use Rattle.graph.specs.Form.{Formed};
ghost use Rattle.graph.specs.inner.Form.{Becomes, sides_ok};
ghost use Rattle.pass.specs.Work.{finish_pass};
ghost use Rattle.pass.specs.Grow.{reaches, grow_pass};
ghost use Rattle.pass.specs.Scratch.{zero_scratch, scratch_of};
ghost use Rattle.pass.specs.inner.Once.{note_far, grow_step_once, grow_scanned_once, grow_pass_once};
ghost use Rattle.pass.specs.inner.Ready.{Ready, Growable, AfterPass};
ghost use Rattle.grow_pass.specs.inner.Growing.{grow_work_in, GrowWorking, GrowWorked, NotesFit};

use crate::take;
use crate::take::GrowProgress;
use pass::{another, scratch};

// Whether the edge of side s is full, its far side free, and the far vertex not virtual.
fn reaches(b: &[i64], s: usize) -> bool
    requires { Formed b.now × (s < side_count (state_of b.now)) }
    ensures { result ≡ reaches (state_of b.now) s }
{
    let o = graph::side::opposite(s);
    let grown = graph::side::growth(b, s) + graph::side::growth(b, o);
    if grown != graph::edge::weight(b, s / 2) {
        return false;
    }
    if graph::side::holder(b, o) != 0 {
        return false;
    }
    let v = graph::side::end(b, o);
    graph::vertex::virtual_flag(b, v) == 0
}

// Whether some side in the boundary of node n reaches a vertex.
fn reaches_any(b: &[i64], n: usize) -> bool
    requires { Formed b.now × (n < node_count (state_of b.now)) × (sides_ok (state_of b.now) n ≡ true) }
    ensures { result ≡ any (reaches (state_of b.now)) (boundary_of (state_of b.now) n) }
{
    graph::lists::boundary(b, n)
        .iter()
        .any(|s| reaches(b, graph::words::to_nat(*s)))
}

// The side across from side s is held by node n, for the grandson of s.
fn hold_far(b: &mut [i64], n: usize, s: usize)
    requires { Formed b.old × (n < node_count (state_of b.old)) × (s < side_count (state_of b.old)) }
    ensures { Becomes b.old b.new (held_side (state_of b.old) (opposite s) n (grandson_at (state_of b.old) s)) }
{
    let g = graph::side::grandson(b, s);
    let o = graph::side::opposite(s);
    graph::side::hold(b, o, n, g);
}

// The vertex behind side s, if free, is held by node n, and the side is noted for it.
fn note_far(
    b: &mut [i64],
    t: &mut [i64],
    n: usize,
    m: usize,
    s: usize,
    p: GrowProgress,
) -> GrowProgress
    requires { GrowWorking b.old t.old n m p × (s < m) × (p.noted < m) × NotesFit b.old p }
    ensures { GrowWorked b.old b.new t.new n m result (note_far n (grow_work_in b.old t.old n m p) s) }
{
    let o = graph::side::opposite(s);
    let v = graph::side::end(b, o);
    if graph::vertex::holder(b, v) == 0 {
        graph::vertex::set_holder(b, v, n + 1);
        graph::words::put(t, 2 * m + p.noted, s);
        GrowProgress {
            noted: p.noted + 1,
            ..p
        }
    } else {
        p
    }
}

// A boundary side s: the far side is taken and the vertex behind noted, the first time, or the side is kept.
fn grow_step(
    b: &mut [i64],
    t: &mut [i64],
    n: usize,
    m: usize,
    s: usize,
    p: GrowProgress,
) -> GrowProgress
    requires { GrowWorking b.old t.old n m p × (s < m) × (p.kept + p.noted < m) × NotesFit b.old p }
    ensures { GrowWorked b.old b.new t.new n m result
        (grow_step_once n (grow_work_in b.old t.old n m p) s) }
{
    if reaches(b, s) {
        hold_far(b, n, s);
        note_far(b, t, n, m, s, p)
    } else {
        graph::words::put(t, p.kept, s);
        GrowProgress {
            kept: p.kept + 1,
            ..p
        }
    }
}

// The boundary of node n, side by side.
fn grow_scan(b: &mut [i64], t: &mut [i64], n: usize, m: usize) -> GrowProgress
    requires { Formed b.old × (n < node_count (state_of b.old)) × (side_count (state_of b.old) ≡ m)
        × (t.old ≡ scratch_of (state_of b.old)) × (sides_ok (state_of b.old) n ≡ true)
        × (length (boundary_of (state_of b.old) n) ≤ m) }
    ensures { GrowWorked b.old b.new t.new n m result (grow_scanned_once (state_of b.old) n) }
{
    let l = graph::lists::boundary_len(b, n);
    let mut q = GrowProgress {
        kept: 0,
        noted: 0,
        pushed: 0,
        another: 0,
    };
    for i in 0..l {
        let s = graph::lists::boundary_side(b, n, i);
        q = grow_step(b, t, n, m, s, q);
    }
    q
}

// The pass up to its end: over the boundary, then over what was noted.
fn grow_work(b: &mut [i64], t: &mut [i64], n: usize, m: usize) -> GrowProgress
    requires { Ready b.old t.old n × Growable (state_of b.old) n × (side_count (state_of b.old) ≡ m) }
    ensures { GrowWorked b.old b.new t.new n m result (grow_pass_once (state_of b.old) n) }
{
    let p = grow_scan(b, t, n, m);
    take::take_noted(b, t, n, m, p)
}

// The end of the pass: the lists of node n are written, and the scratch is cleared.
fn finish(b: &mut [i64], t: &mut [i64], n: usize, m: usize, p: GrowProgress)
    requires { GrowWorking b.old t.old n m p
        ×
        (entries (state_of b.old) + (p.kept + length (overgrown_of (state_of b.old) n) + p.pushed)
        ≤ (state_of b.old).store_limit + entries_of (state_of b.old) n) }
    ensures { Becomes b.old b.new (finish_pass (grow_work_in b.old t.old n m p) n)
        × (t.new ≡ zero_scratch (length t.old)) }
{
    let o = graph::lists::overgrown_len(b, n);
    store::replace::replace_lists(b, n, t, p.kept, o, m, p.pushed);
    scratch::wipe(t, 0, p.kept);
    scratch::wipe(t, m, p.pushed);
    scratch::wipe(t, 2 * m, p.noted);
}

// A growing pass over node n; whether another pass is called for. Where the boundary reaches nothing, nothing is written.
pub fn grow_pass(b: &mut [i64], t: &mut [i64], n: usize) -> bool
    requires { Ready b.old t.old n × Growable (state_of b.old) n }
    ensures { AfterPass b.old b.new t.old t.new n (grow_pass (state_of b.old) n) result }
{
    if reaches_any(b, n) {
        let m = graph::rows::side_count(b);
        let p = grow_work(b, t, n, m);
        let more = p.another;
        finish(b, t, n, m, p);
        another::called(more)
    } else {
        false
    }
}
