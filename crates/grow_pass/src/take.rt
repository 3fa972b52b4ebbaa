// A growing pass: the vertices behind the noted sides are taken, each with its free sides.

ghost use Rattle.std.specs.Prelude.{◌≡◌, true, ◌*◌, ◌<◌, ltb};
ghost use Rattle.graph.specs.Basic.{fold, all};
ghost use Rattle.graph.specs.State.{vertex_count, sides_at};
ghost use Rattle.graph.specs.Word.{numbers_at, word_limit};
ghost use Rattle.graph.specs.Layout.{state_of};
ghost use Rattle.pass.specs.Grow.{take_side, take_vertex};
ghost use Rattle.pass.specs.inner.Once.{take_once};
ghost use Rattle.grow_pass.specs.inner.Growing.{grow_work_in, GrowWorking, GrowWorked, OwnKept};

use pass::another;

// How far a growing pass has come: how many entries each section of its scratch has.
#[derive(Clone, Copy)]
pub struct GrowProgress {
    pub kept: usize, // sides of the new boundary
    pub noted: usize, // boundary sides that reach a vertex, one for each
    pub pushed: usize, // vertices that go on the overgrown stack
    pub another: usize, // whether another pass is called for, 0 for no
}

// Side s, at a vertex that is being taken: if free, it is held by node n for the defect node stored as g, and kept.
fn take_side(
    b: &mut [i64],
    t: &mut [i64],
    n: usize,
    g: usize,
    m: usize,
    s: usize,
    p: GrowProgress,
) -> GrowProgress
    requires { GrowWorking b.old t.old n m p × OwnKept b.old t.old n m p × (s < m) × (g < word_limit) }
    ensures { GrowWorked b.old b.new t.new n m result (take_side n g (grow_work_in b.old t.old n m p) s) }
{
    if graph::side::holder(b, s) == 0 {
        let w = graph::edge::weight(b, s / 2);
        graph::side::hold(b, s, n, g);
        graph::words::put(t, p.kept, s);
        GrowProgress {
            kept: p.kept + 1,
            another: another::called_if(w == 0, p.another),
            ..p
        }
    } else {
        p
    }
}

// The free sides at vertex v are held and kept.
fn take_sides(
    b: &mut [i64],
    t: &mut [i64],
    n: usize,
    g: usize,
    m: usize,
    v: usize,
    p: GrowProgress,
) -> GrowProgress
    requires { GrowWorking b.old t.old n m p × OwnKept b.old t.old n m p × (v < vertex_count (state_of b.old)) × (g < word_limit) }
    ensures { GrowWorked b.old b.new t.new n m result
        (fold (take_side n g) (grow_work_in b.old t.old n m p)
        (sides_at (state_of b.old) v)) }
{
    let l = graph::sides::sides_len(b, v);
    let mut q = p;
    for i in 0..l {
        let s = graph::sides::vertex_side(b, v, i);
        q = take_side(b, t, n, g, m, s, q);
    }
    q
}

// Vertex v is taken by node n for the defect node stored as g; without free sides it is overgrown.
fn take_vertex(
    b: &mut [i64],
    t: &mut [i64],
    n: usize,
    g: usize,
    m: usize,
    v: usize,
    p: GrowProgress,
) -> GrowProgress
    requires { GrowWorking b.old t.old n m p × OwnKept b.old t.old n m p × (v < vertex_count (state_of b.old))
        × (g < word_limit) × (p.pushed < m) }
    ensures { GrowWorked b.old b.new t.new n m result
        (take_vertex n g (grow_work_in b.old t.old n m p) v) }
{
    let before = p.kept;
    graph::vertex::hold(b, v, n, g);
    let q = take_sides(b, t, n, g, m, v, p);
    if q.kept == before {
        graph::words::put(t, m + q.pushed, v);
        GrowProgress {
            pushed: q.pushed + 1,
            ..q
        }
    } else {
        q
    }
}

// A noted side s: the vertex behind it is taken.
fn take_step(
    b: &mut [i64],
    t: &mut [i64],
    n: usize,
    m: usize,
    s: usize,
    p: GrowProgress,
) -> GrowProgress
    requires { GrowWorking b.old t.old n m p × OwnKept b.old t.old n m p × (s < m) × (p.pushed < m) }
    ensures { GrowWorked b.old b.new t.new n m result (take_once n (grow_work_in b.old t.old n m p) s) }
{
    let o = graph::side::opposite(s);
    let v = graph::side::end(b, o);
    let g = graph::side::grandson(b, s);
    take_vertex(b, t, n, g, m, v, p)
}

// All noted sides, in order.
pub fn take_noted(b: &mut [i64], t: &mut [i64], n: usize, m: usize, p: GrowProgress) -> GrowProgress
    requires { GrowWorking b.old t.old n m p × OwnKept b.old t.old n m p
        × (all (λ s. ltb s m) (numbers_at t.old (2 * m) p.noted) ≡ true) × (p.pushed ≡ 0) }
    ensures { GrowWorked b.old b.new t.new n m result
        (fold (take_once n) (grow_work_in b.old t.old n m p)
        (numbers_at t.old (2 * m) p.noted)) }
{
    let l = p.noted;
    let mut q = p;
    for i in 0..l {
        let s = graph::words::word(t, 2 * m + i);
        q = take_step(b, t, n, m, s, q);
    }
    q
}
