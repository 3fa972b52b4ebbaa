// How far a shrinking pass has come: its kept sides stand in the first section of the scratch, a mark for each kept side
// in the second, and the noted vertices in the third.

ghost use Rattle.std.specs.Prelude.{◌≡◌, List, ℕ, ◌+◌, ◌*◌, ◌<◌, ◌≤◌, ℤ, length};
ghost use Rattle.graph.specs.Layout.{state_of};
ghost use Rattle.graph.specs.State.{vertex_count};
ghost use Rattle.graph.specs.Word.{word_at};
ghost use Rattle.pass.specs.Work.{keep_once, note};
ghost use Rattle.shrink_pass.specs.inner.Shrinking.{ShrinkWorking, ShrinkWorked, KeptMarked, unmarked};
ghost use Rattle.pass.specs.Scratch.{zero_scratch};

use graph::words;
use pass::scratch;

// What the loops of a shrinking pass hand on.
#[derive(Clone, Copy)]
pub struct ShrinkProgress {
    pub kept: usize, // how many sides are kept
    pub noted: usize, // how many vertices are noted
    pub another: usize, // whether another pass is called for, 0 for no
}

// Side s is kept, once: its mark tells whether it is kept already.
pub fn keep_once(t: &mut [i64], m: usize, p: ShrinkProgress, s: usize) -> ShrinkProgress
    requires { (s < m) × (m ≤ 8192) × (p.kept ≤ m) × (2 * m ≤ length t.old) }
    ensures { (b : List ℤ) → ShrinkWorking b t.old m p → ShrinkWorked b t.old b t.new m p result (λ w. keep_once w s) }
{
    if words::word(t, m + s) == 0 {
        words::put(t, p.kept, s);
        words::put(t, m + s, 1);
        ShrinkProgress {
            kept: p.kept + 1,
            ..p
        }
    } else {
        p
    }
}

// Vertex v is noted.
pub fn note(t: &mut [i64], m: usize, p: ShrinkProgress, v: usize) -> ShrinkProgress
    requires { (m ≤ 8192) × (2 * m + p.noted < length t.old) × (v < 1024) }
    ensures { (b : List ℤ) → v < vertex_count (state_of b) → ShrinkWorking b t.old m p
        → ShrinkWorked b t.old b t.new m p result (λ w. note w v) }
{
    words::put(t, 2 * m + p.noted, v);
    ShrinkProgress {
        noted: p.noted + 1,
        ..p
    }
}

// The marks of the first k kept sides are set to zero.
fn unmark(t: &mut [i64], m: usize, k: usize)
    requires { (k ≤ m) × (m ≤ 8192) × (2 * m ≤ length t.old) × ((i : ℕ) → i < k → word_at t.old i < m) }
    ensures { t.new ≡ unmarked t.old m k }
{
    for i in 0..k {
        let s = words::word(t, i);
        words::put(t, m + s, 0);
    }
}

// The scratch is all zero again.
pub fn clear(t: &mut [i64], m: usize, p: ShrinkProgress)
    requires { KeptMarked t.old m p 0 × (m ≤ 8192) }
    ensures { t.new ≡ zero_scratch (length t.old) }
{
    unmark(t, m, p.kept);
    scratch::wipe(t, 0, p.kept);
    scratch::wipe(t, 2 * m, p.noted);
}
