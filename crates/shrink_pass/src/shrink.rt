// The shrinking pass over a node: overgrown vertices of amount 0 go, then the vertices behind boundary sides of growth 0.

ghost use Rattle.std.specs.Prelude.{◌≡◌, ◌<◌, ◌≤◌, length, true};
ghost use Rattle.graph.specs.Basic.{fold, any};
ghost use Rattle.graph.specs.State.{side_count, node_count, boundary_of, overgrown_of};
ghost use Rattle.graph.specs.Layout.{state_of};
ghost use Rattle.graph.specs.Form.{Formed};
ghost use Rattle.graph.specs.inner.Form.{Becomes, sides_ok};
ghost use Rattle.pass.specs.Shrink.{empty_tops, shrink_pass};
ghost use Rattle.pass.specs.inner.Free.{free_count};
ghost use Rattle.pass.specs.inner.Once.{note_end, shrink_step_once, release_once, shrink_pass_once};
ghost use Rattle.pass.specs.inner.Ready.{Ready, Shrinkable, AfterPass};
ghost use Rattle.shrink_pass.specs.inner.Shrinking.{HasShrinkWork, ShrinkWorking, ShrinkWorked, vertex_left};

use crate::keep::ShrinkProgress;
use crate::{keep, release, tops};
use graph::{lists, rows, side, vertex, words};
use pass::another;
use store::replace;

// Whether side s has growth 0 and stands at no defect.
pub fn emptied(b: &[i64], s: usize) -> bool
    requires { Formed b.now × (s < side_count (state_of b.now)) }
    ensures { result ≡ vertex_left (state_of b.now) s }
{
    if side::growth(b, s) != 0 {
        return false;
    }
    let v = side::end(b, s);
    vertex::defect_flag(b, v) == 0
}

// Whether there is such a side in the boundary of node n.
fn any_emptied(b: &[i64], n: usize) -> bool
    requires { Formed b.now × (n < node_count (state_of b.now)) × (sides_ok (state_of b.now) n ≡ true) }
    ensures { result ≡ any (vertex_left (state_of b.now)) (boundary_of (state_of b.now) n) }
{
    lists::boundary(b, n)
        .iter()
        .any(|s| emptied(b, words::to_nat(*s)))
}

// The vertex of side s, if held, has no holder any more and is noted.
fn note_end(b: &mut [i64], t: &mut [i64], m: usize, p: ShrinkProgress, s: usize) -> ShrinkProgress
    requires { ShrinkWorking b.old t.old m p × (s < m) × (p.noted < m) × (p.noted ≤ free_count (state_of b.old)) }
    ensures { ShrinkWorked b.old t.old b.new t.new m p result (λ w. note_end w s) }
{
    let v = side::end(b, s);
    if vertex::holder(b, v) == 0 {
        p
    } else {
        vertex::set_holder(b, v, 0);
        keep::note(t, m, p, v)
    }
}

// Boundary side s: its vertex is noted, the first time, or the side is kept once.
fn shrink_side(
    b: &mut [i64],
    t: &mut [i64],
    m: usize,
    p: ShrinkProgress,
    s: usize,
) -> ShrinkProgress
    requires { ShrinkWorking b.old t.old m p × (s < m) × (p.noted < m) × (p.noted ≤ free_count (state_of b.old)) }
    ensures { ShrinkWorked b.old t.old b.new t.new m p result (λ w. shrink_step_once w s) }
{
    if emptied(b, s) {
        note_end(b, t, m, p, s)
    } else {
        keep::keep_once(t, m, p, s)
    }
}

// The boundary of node n.
fn shrink_scan(
    b: &mut [i64],
    t: &mut [i64],
    n: usize,
    m: usize,
    p: ShrinkProgress,
) -> ShrinkProgress
    requires { ShrinkWorking b.old t.old m p × (n < node_count (state_of b.old)) × Shrinkable (state_of b.old) n × (p.noted ≡ 0) }
    ensures { ShrinkWorked b.old t.old b.new t.new m p result
        (λ w. fold shrink_step_once w (boundary_of (state_of b.old) n)) }
{
    let l = lists::boundary_len(b, n);
    let mut q = p;
    for i in 0..l {
        let s = lists::boundary_side(b, n, i);
        q = shrink_side(b, t, m, q, s);
    }
    q
}

// The noted vertices are released.
fn release_noted(
    b: &mut [i64],
    t: &mut [i64],
    n: usize,
    m: usize,
    p: ShrinkProgress,
) -> ShrinkProgress
    requires { ShrinkWorking b.old t.old m p × (n < node_count (state_of b.old)) }
    ensures { ShrinkWorked b.old t.old b.new t.new m p result (λ w. fold (release_once n) w w.noted) }
{
    let l = p.noted;
    let mut q = p;
    for i in 0..l {
        let v = words::word(t, 2 * m + i);
        q = release::release_vertex(b, t, n, m, q, v);
    }
    q
}

// The work of the pass over m sides, with z empty tops.
fn shrink_work(b: &mut [i64], t: &mut [i64], n: usize, m: usize, z: usize) -> ShrinkProgress
    requires { Ready b.old t.old n × Shrinkable (state_of b.old) n × (m ≡ side_count (state_of b.old))
        × (z ≡ length (empty_tops (overgrown_of (state_of b.old) n))) }
    ensures { Becomes b.old b.new (state_of b.new)
        × HasShrinkWork b.new t.new m result (shrink_pass_once (state_of b.old) n) }
{
    let p = ShrinkProgress {
        kept: 0,
        noted: 0,
        another: 0,
    };
    let q = tops::drop_tops(b, t, n, m, p, z);
    let r = shrink_scan(b, t, n, m, q);
    release_noted(b, t, n, m, r)
}

// The same with its end: the new lists are written and the scratch is cleared.
fn shrink_all(b: &mut [i64], t: &mut [i64], n: usize, z: usize) -> bool
    requires { Ready b.old t.old n × Shrinkable (state_of b.old) n × (z ≡ length (empty_tops (overgrown_of (state_of b.old) n))) }
    ensures { AfterPass b.old b.new t.old t.new n (shrink_pass (state_of b.old) n) result }
{
    let m = rows::side_count(b);
    let p = shrink_work(b, t, n, m, z);
    let o = lists::overgrown_len(b, n);
    let more = p.another;
    replace::replace_lists(b, n, t, p.kept, o - z, 0, 0);
    keep::clear(t, m, p);
    another::called(more)
}

// One shrinking pass over node n; whether another is called for. Where nothing goes, nothing is written.
pub fn shrink_pass(b: &mut [i64], t: &mut [i64], n: usize) -> bool
    requires { Ready b.old t.old n × Shrinkable (state_of b.old) n }
    ensures { AfterPass b.old b.new t.old t.new n (shrink_pass (state_of b.old) n) result }
{
    let z = tops::empty_tops(b, n);
    if (z != 0) | any_emptied(b, n) {
        shrink_all(b, t, n, z)
    } else {
        false
    }
}
