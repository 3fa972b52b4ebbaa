// What is stored of a vertex.

ghost use Rattle.std.specs.Prelude.{◌≡◌, ◌<◌, ◌≤◌};
ghost use Rattle.graph.specs.State.{held_vertex, free_vertex, vertex_count, virtual_at, defect_at, vertex_holder_at, vertex_grandson_at, with_defect, with_vertex_holder, with_vertex_grandson};
ghost use Rattle.graph.specs.Layout.{state_of};
ghost use Rattle.graph.specs.Form.{Formed};
ghost use Rattle.graph.specs.inner.Form.{Becomes};
ghost use Rattle.graph.specs.Word.{word_limit};

use crate::rows;

// 1 if vertex v is virtual, 0 else.
pub fn virtual_flag(b: &[i64], v: usize) -> usize
    requires { Formed b.now × (v < vertex_count (state_of b.now)) }
    ensures { (result ≡ virtual_at (state_of b.now) v) × (result ≤ 1) }
{
    rows::vertex_word(b, rows::FLAGS, v) % 2
}

// 1 if vertex v is a defect, 0 else.
pub fn defect_flag(b: &[i64], v: usize) -> usize
    requires { Formed b.now × (v < vertex_count (state_of b.now)) }
    ensures { (result ≡ defect_at (state_of b.now) v) × (result < word_limit) }
{
    rows::vertex_word(b, rows::FLAGS, v) / 2
}

// Vertex v is a defect if x is 1, none if x is 0.
pub fn set_defect(b: &mut [i64], v: usize, x: usize)
    requires { Formed b.old × (v < vertex_count (state_of b.old)) × (x ≤ 1) }
    ensures { Becomes b.old b.new (with_defect (state_of b.old) v x) }
{
    let f = rows::vertex_word(b, rows::FLAGS, v);
    rows::put_vertex(b, rows::FLAGS, v, f % 2 + 2 * x);
}

// The node that holds vertex v, or none.
pub fn holder(b: &[i64], v: usize) -> usize
    requires { Formed b.now × (v < vertex_count (state_of b.now)) }
    ensures { (result ≡ vertex_holder_at (state_of b.now) v) × (result < word_limit) }
{
    rows::vertex_word(b, rows::VERTEX_HOLDER, v)
}

// Vertex v is held by the node stored as x, for the defect node that it has.
pub fn set_holder(b: &mut [i64], v: usize, x: usize)
    requires { Formed b.old × (v < vertex_count (state_of b.old)) × (x < word_limit) }
    ensures { Becomes b.old b.new (with_vertex_holder (state_of b.old) v x) }
{
    rows::put_vertex(b, rows::VERTEX_HOLDER, v, x);
}

// The defect node from which vertex v was reached, or none.
pub fn grandson(b: &[i64], v: usize) -> usize
    requires { Formed b.now × (v < vertex_count (state_of b.now)) }
    ensures { (result ≡ vertex_grandson_at (state_of b.now) v) × (result < word_limit) }
{
    rows::vertex_word(b, rows::VERTEX_GRANDSON, v)
}

fn set_grandson(b: &mut [i64], v: usize, x: usize)
    requires { Formed b.old × (v < vertex_count (state_of b.old)) × (x < word_limit) }
    ensures { Becomes b.old b.new (with_vertex_grandson (state_of b.old) v x) }
{
    rows::put_vertex(b, rows::VERTEX_GRANDSON, v, x);
}

// Vertex v is held by node n for the defect node stored as g.
pub fn hold(b: &mut [i64], v: usize, n: usize, g: usize)
    requires { Formed b.old × (v < vertex_count (state_of b.old)) × (n < 1024) × (g < word_limit) }
    ensures { Becomes b.old b.new (held_vertex (state_of b.old) v n g) }
{
    set_holder(b, v, n + 1);
    set_grandson(b, v, g);
}

// Vertex v is free.
pub fn free(b: &mut [i64], v: usize)
    requires { Formed b.old × (v < vertex_count (state_of b.old)) }
    ensures { Becomes b.old b.new (free_vertex (state_of b.old) v) }
{
    set_holder(b, v, 0);
    set_grandson(b, v, 0);
}
