// The calls on a sound block with a scratch that is all zero.

ghost use Rattle.std.specs.Prelude.{◌≡◌, ◌≤◌, true, false, unsigned_abs};
ghost use Rattle.std.specs.Int.Signed.{non_neg};
ghost use Rattle.graph.specs.Sound.{sound};
ghost use Rattle.graph.specs.Layout.{state_of};
ghost use Rattle.graph.specs.Form.{Formed};
ghost use Rattle.graph.specs.Opening.{Cleared};
ghost use Rattle.answers.specs.Outcome.{told};
ghost use Rattle.calls.specs.inner.Reply.{Replies, along, MemoryPreparable, Usable};
ghost use Rattle.growth.specs.inner.Moving.{PreparedToMove};
ghost use Rattle.calls.specs.Calls.{set_grow_state, prepare_dual_node_growth, max_update_length, grow_prepared, grow_toward, grow_dual_node, clear};
ghost use Rattle.graph.specs.Word.{word_limit};

use crate::{refuse, tested};
use answers::Answer;
use graph::dual_node::UP;
use graph::node;
use refusal::Refusal;
use store::clear;
use update_length::scan;

// Node n gets the grow state x, and joins the active list where it leaves Stay.
pub fn set_grow_state(b: &mut [i64], n: usize, x: usize) -> Result<Answer, Refusal>
    requires { Formed b.old × (sound (state_of b.old) ≡ true) }
    ensures { Replies b.old b.new (told result) (set_grow_state (state_of b.old) n x) }
{
    refuse::node_refusal(b, n, node::SHRINK < x, false)?;
    active_list::activate(b, n, x);
    node::set_grow_state(b, n, x);
    Ok(Answer::Done)
}

// Node n is prepared to grow in direction d, in which it can be.
pub fn prepare_toward(b: &mut [i64], t: &mut [i64], n: usize, d: usize) -> Result<Answer, Refusal>
    requires { MemoryPreparable b.old t.old n d }
    ensures { Replies b.old b.new (told result) (prepare_dual_node_growth (state_of b.old) n d) × (t.new ≡ t.old) }
{
    tested::prepare_toward(b, t, n, d, false).answer
}

// Node n is prepared to grow in direction d.
pub fn prepare_dual_node_growth(
    b: &mut [i64],
    t: &mut [i64],
    n: usize,
    d: usize,
) -> Result<Answer, Refusal>
    requires { Usable b.old t.old }
    ensures { Replies b.old b.new (told result) (prepare_dual_node_growth (state_of b.old) n d) × (t.new ≡ t.old) }
{
    prepare_toward(b, t, n, d)
}

// How far node n may grow in direction d, as it is.
pub fn length_unprepared(b: &[i64], n: usize, d: usize) -> Result<Answer, Refusal>
    requires { Formed b.now × (sound (state_of b.now) ≡ true) }
    ensures { Replies b.now b.now (told result) (max_update_length (state_of b.now) n d false) }
{
    refuse::node_refusal(b, n, UP < d, false)?;
    tested::answered(scan::scan(b, n, d))
}

// How far node n may grow in direction d, prepared first. It can be prepared so again.
pub fn length_prepared(b: &mut [i64], t: &mut [i64], n: usize, d: usize) -> Result<Answer, Refusal>
    requires { Usable b.old t.old }
    ensures { Replies b.old b.new (told result) (max_update_length (state_of b.old) n d true)
        × (t.new ≡ t.old) × MemoryPreparable b.new t.new n d }
{
    tested::length_prepared(b, t, n, d, false).answer
}

// How far node n may grow in direction d; `first` says whether it is prepared first.
pub fn compute_maximum_update_length_dual_node(
    b: &mut [i64],
    t: &mut [i64],
    n: usize,
    d: usize,
    first: bool,
) -> Result<Answer, Refusal>
    requires { Usable b.old t.old }
    ensures { Replies b.old b.new (told result) (max_update_length (state_of b.old) n d first) × (t.new ≡ t.old) }
{
    tested::compute_maximum_update_length_dual_node(b, t, n, d, first, false).answer
}

// A prepared node n grows by l in direction d, or is refused.
pub fn grow_prepared(b: &mut [i64], n: usize, d: usize, l: usize) -> Result<Answer, Refusal>
    requires { Formed b.old × PreparedToMove (state_of b.old) n × (l ≤ word_limit) }
    ensures { Replies b.old b.new (told result) (grow_prepared (state_of b.old) n d l) }
{
    growth::grow_check(b, n, d, l)?;
    growth::grow_apply(b, n, d, l);
    Ok(Answer::Done)
}

// Node n is prepared and grows by l in direction d, or is refused.
pub fn grow_toward(
    b: &mut [i64],
    t: &mut [i64],
    n: usize,
    d: usize,
    l: usize,
) -> Result<Answer, Refusal>
    requires { MemoryPreparable b.old t.old n d × (l ≤ word_limit) }
    ensures { Replies b.old b.new (told result) (grow_toward (state_of b.old) n d l) × (t.new ≡ t.old) }
{
    tested::grow_toward(b, t, n, d, l, false).answer
}

// Node n grows by 0, in whatever direction: nothing changes.
pub fn grow_none(b: &[i64], n: usize, d: usize, length: i64) -> Result<Answer, Refusal>
    requires { Formed b.now × (unsigned_abs length ≡ 0) }
    ensures { Replies b.now b.now (told result) (grow_dual_node (state_of b.now) n (along d length)) }
{
    refuse::node_refusal(b, n, false, false)?;
    Ok(Answer::Done)
}

// Node n grows by a length in direction d: below 0, upward turns to downward.
pub fn grow_along(
    b: &mut [i64],
    t: &mut [i64],
    n: usize,
    d: usize,
    length: i64,
) -> Result<Answer, Refusal>
    requires { MemoryPreparable b.old t.old n d × (d ≤ 1) × (non_neg length ≡ false → d ≡ 1) }
    ensures { Replies b.old b.new (told result) (grow_dual_node (state_of b.old) n (along d length))
        × (t.new ≡ t.old) }
{
    tested::grow_along(b, t, n, d, length, false).answer
}

// Node n grows by a length: below 0 it shrinks.
pub fn grow_dual_node(
    b: &mut [i64],
    t: &mut [i64],
    n: usize,
    length: i64,
) -> Result<Answer, Refusal>
    requires { Usable b.old t.old }
    ensures { Replies b.old b.new (told result) (grow_dual_node (state_of b.old) n length) × (t.new ≡ t.old) }
{
    grow_along(b, t, n, 1, length)
}

// Everything but the graph is emptied.
pub fn clear_all(b: &mut [i64]) -> Result<Answer, Refusal>
    requires { Formed b.old }
    ensures { (told result ≡ (clear (state_of b.old)).answer)
        × (state_of b.new ≡ (clear (state_of b.old)).state) × Cleared b.old b.new }
{
    clear::clear(b);
    Ok(Answer::Done)
}
