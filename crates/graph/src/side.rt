// A side is one end of an edge: edge e has the sides 2 e (left) and 2 e + 1 (right). A node is stored as its number + 1, 0 is none.

ghost use Rattle.std.specs.Prelude.{◌≡◌, ◌/◌, ◌<◌};
ghost use Rattle.graph.specs.State.{opposite, held_side, free_side, vertex_count, side_count, end_at, growth_at, holder_at, grandson_at, with_growth, with_holder, with_grandson};
ghost use Rattle.graph.specs.Layout.{state_of};
ghost use Rattle.graph.specs.Form.{Formed};
ghost use Rattle.graph.specs.inner.Form.{Becomes};
ghost use Rattle.graph.specs.Word.{word_limit};

use crate::rows;

// The side across.
pub fn opposite(s: usize) -> usize
    requires { s < 8192 }
    ensures { (result ≡ opposite s) × (result / 2 ≡ s / 2) }
{
    if s % 2 == 0 { s + 1 } else { s - 1 }
}

// The vertex of side s.
pub fn end(b: &[i64], s: usize) -> usize
    requires { Formed b.now × (s < side_count (state_of b.now)) }
    ensures { (result ≡ end_at (state_of b.now) s) × (result < vertex_count (state_of b.now)) }
{
    rows::side_word(b, rows::END, s)
}

// The growth of side s.
pub fn growth(b: &[i64], s: usize) -> usize
    requires { Formed b.now × (s < side_count (state_of b.now)) }
    ensures { (result ≡ growth_at (state_of b.now) s) × (result < word_limit) }
{
    rows::side_word(b, rows::GROWTH, s)
}

pub fn set_growth(b: &mut [i64], s: usize, x: usize)
    requires { Formed b.old × (s < side_count (state_of b.old)) × (x < word_limit) }
    ensures { Becomes b.old b.new (with_growth (state_of b.old) s x) }
{
    rows::put_side(b, rows::GROWTH, s, x);
}

// The node that holds side s, or none.
pub fn holder(b: &[i64], s: usize) -> usize
    requires { Formed b.now × (s < side_count (state_of b.now)) }
    ensures { (result ≡ holder_at (state_of b.now) s) × (result < word_limit) }
{
    rows::side_word(b, rows::HOLDER, s)
}

pub fn set_holder(b: &mut [i64], s: usize, x: usize)
    requires { Formed b.old × (s < side_count (state_of b.old)) × (x < word_limit) }
    ensures { Becomes b.old b.new (with_holder (state_of b.old) s x) }
{
    rows::put_side(b, rows::HOLDER, s, x);
}

// The defect node that the growth of side s came from, or none.
pub fn grandson(b: &[i64], s: usize) -> usize
    requires { Formed b.now × (s < side_count (state_of b.now)) }
    ensures { (result ≡ grandson_at (state_of b.now) s) × (result < word_limit) }
{
    rows::side_word(b, rows::GRANDSON, s)
}

fn set_grandson(b: &mut [i64], s: usize, x: usize)
    requires { Formed b.old × (s < side_count (state_of b.old)) × (x < word_limit) }
    ensures { Becomes b.old b.new (with_grandson (state_of b.old) s x) }
{
    rows::put_side(b, rows::GRANDSON, s, x);
}

// Side s is held by node n for the defect node stored as g.
pub fn hold(b: &mut [i64], s: usize, n: usize, g: usize)
    requires { Formed b.old × (s < side_count (state_of b.old)) × (n < 1024) × (g < word_limit) }
    ensures { Becomes b.old b.new (held_side (state_of b.old) s n g) }
{
    set_holder(b, s, n + 1);
    set_grandson(b, s, g);
}

// Side s is free.
pub fn free(b: &mut [i64], s: usize)
    requires { Formed b.old × (s < side_count (state_of b.old)) }
    ensures { Becomes b.old b.new (free_side (state_of b.old) s) }
{
    set_holder(b, s, 0);
    set_grandson(b, s, 0);
}
