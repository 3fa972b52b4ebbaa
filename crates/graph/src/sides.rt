// The sides at a vertex: a stretch of the row `at`, from the first of the vertex to the first of the next.

ghost use Rattle.std.specs.Prelude.{◌≡◌, ◌<◌, ◌≤◌, length, get_or};
ghost use Rattle.graph.specs.State.{vertex_count, side_count, sides_at};
ghost use Rattle.graph.specs.Layout.{state_of};
ghost use Rattle.graph.specs.Form.{Laid, Formed};
ghost use Rattle.graph.specs.inner.SidesAt.{last_word, first_word, Rising};
ghost use Rattle.graph.specs.Word.{word_limit};

use crate::rows;

// ---- of a block that is not yet known to be sound

// Where the sides at vertex v begin in `at`.
pub fn first(b: &[i64], v: usize) -> usize
    requires { Laid b.now × (v < vertex_count (state_of b.now)) }
    ensures { (result ≡ first_word b.now v) × (result < word_limit) }
{
    rows::vertex_word(b, rows::FIRST, v)
}

// Where they end.
pub fn last(b: &[i64], v: usize) -> usize
    requires { Laid b.now × (v < vertex_count (state_of b.now)) }
    ensures { (result ≡ last_word b.now v) × (result < word_limit) }
{
    let m = rows::vertex_count(b);
    if v + 1 < m {
        first(b, v + 1)
    } else {
        rows::side_count(b)
    }
}

// How many sides stand at vertex v.
pub fn stretch_len(b: &[i64], v: usize) -> usize
    requires { Laid b.now × Rising b.now × (v < vertex_count (state_of b.now)) }
    ensures { (result ≡ length (sides_at (state_of b.now) v)) × (result ≤ 8192) }
{
    let a = first(b, v);
    let l = last(b, v);
    l - a
}

// Number i of them.
pub fn stretch_side(b: &[i64], v: usize, i: usize) -> usize
    requires { Laid b.now × Rising b.now × (v < vertex_count (state_of b.now)) × (i < length (sides_at (state_of b.now) v)) }
    ensures { (result ≡ get_or (sides_at (state_of b.now) v) i 0) × (result < word_limit) }
{
    let a = first(b, v);
    rows::side_word(b, rows::AT, a + i)
}

// ---- of a block in form

// How many sides stand at vertex v.
pub fn sides_len(b: &[i64], v: usize) -> usize
    requires { Formed b.now × (v < vertex_count (state_of b.now)) }
    ensures { (result ≡ length (sides_at (state_of b.now) v)) × (result ≤ 8192) }
{
    stretch_len(b, v)
}

// Side i at vertex v.
pub fn vertex_side(b: &[i64], v: usize, i: usize) -> usize
    requires { Formed b.now × (v < vertex_count (state_of b.now)) × (i < length (sides_at (state_of b.now) v)) }
    ensures { (result ≡ get_or (sides_at (state_of b.now) v) i 0) × (result < side_count (state_of b.now)) }
{
    stretch_side(b, v, i)
}
