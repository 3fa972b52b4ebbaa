// The calls that prepare, on a sound block with a scratch that is all zero. Where it is asked for, each tells beside its answer whether the
// block was certainly kept sound; where not, nothing is tested.

ghost use Rattle.std.specs.Prelude.{◌≡◌, ◌≤◌, true, false, ◌&&◌};
ghost use Rattle.std.specs.Int.Signed.{non_neg};
ghost use Rattle.graph.specs.Layout.{state_of};
ghost use Rattle.graph.specs.Word.{word_limit};
ghost use Rattle.answers.specs.Outcome.{told, length_told};
ghost use Rattle.calls.specs.inner.Reply.{Replies, along, MemoryPreparable, Usable};
ghost use Rattle.calls.specs.Keeps.{prepare_keeps, length_keeps, toward_keeps, grow_keeps, moves_keeps, advance_keeps};
ghost use Rattle.calls.specs.Calls.{prepare_dual_node_growth, max_update_length, grow_toward, grow_dual_node, toward, advance_by, advance};

use crate::{advance, core_calls, refuse};
use answers::{Answer, MaxUpdateLength};
use graph::dual_node::{DOWN, UP};
use graph::{node, words};
use refusal::Refusal;
use update_length::scan;

// An answer, and whether a sound block was certainly kept sound.
#[derive(Clone, Copy)]
pub struct Tested<R = Refusal> {
    pub answer: Result<Answer, R>,
    pub kept: bool,
}

// What the scan of a boundary says as an answer.
pub fn answered(found: Result<MaxUpdateLength, Refusal>) -> Result<Answer, Refusal>
    ensures { told result ≡ length_told found }
{
    Ok(Answer::Length(found?))
}

// Node n is prepared to grow in direction d, in which it can be.
pub fn prepare_toward(b: &mut [i64], t: &mut [i64], n: usize, d: usize, ask: bool) -> Tested
    requires { MemoryPreparable b.old t.old n d }
    ensures { Replies b.old b.new (told result.answer) (prepare_dual_node_growth (state_of b.old) n d)
        × (t.new ≡ t.old) × (result.kept ≡ (ask && prepare_keeps (state_of b.old) n d)) }
{
    if let Err(refusal) = refuse::node_refusal(b, n, UP < d, true) {
        return Tested {
            answer: Err(refusal),
            kept: ask,
        };
    }
    let p = prepare_tested::prepare_asked(b, t, n, d, ask);
    Tested {
        answer: Ok(Answer::Prepared(p.passes)),
        kept: p.kept,
    }
}

// Node n is prepared to grow in direction d.
pub fn prepare_dual_node_growth(
    b: &mut [i64],
    t: &mut [i64],
    n: usize,
    d: usize,
    ask: bool,
) -> Tested
    requires { Usable b.old t.old }
    ensures { Replies b.old b.new (told result.answer) (prepare_dual_node_growth (state_of b.old) n d)
        × (t.new ≡ t.old) × (result.kept ≡ (ask && prepare_keeps (state_of b.old) n d)) }
{
    prepare_toward(b, t, n, d, ask)
}

// How far node n may grow in direction d, prepared first. It can be prepared so again.
pub fn length_prepared(b: &mut [i64], t: &mut [i64], n: usize, d: usize, ask: bool) -> Tested
    requires { Usable b.old t.old }
    ensures { Replies b.old b.new (told result.answer) (max_update_length (state_of b.old) n d true)
        × (t.new ≡ t.old) × MemoryPreparable b.new t.new n d
        × (result.kept ≡ (ask && length_keeps (state_of b.old) n d true)) }
{
    if let Err(refusal) = refuse::node_refusal(b, n, UP < d, true) {
        return Tested {
            answer: Err(refusal),
            kept: ask,
        };
    }
    let p = prepare_tested::prepare_asked(b, t, n, d, ask);
    let answer = answered(scan::scan(b, n, d));
    Tested {
        answer,
        kept: p.kept,
    }
}

// How far node n may grow in direction d; `first` says whether it is prepared first.
pub fn compute_maximum_update_length_dual_node(
    b: &mut [i64],
    t: &mut [i64],
    n: usize,
    d: usize,
    first: bool,
    ask: bool,
) -> Tested
    requires { Usable b.old t.old }
    ensures { Replies b.old b.new (told result.answer) (max_update_length (state_of b.old) n d first)
        × (t.new ≡ t.old) × (result.kept ≡ (ask && length_keeps (state_of b.old) n d first)) }
{
    if first {
        return length_prepared(b, t, n, d, ask);
    }
    let answer = core_calls::length_unprepared(b, n, d);
    Tested { answer, kept: ask }
}

// Node n is prepared and grows by l in direction d, or is refused.
pub fn grow_toward(b: &mut [i64], t: &mut [i64], n: usize, d: usize, l: usize, ask: bool) -> Tested
    requires { MemoryPreparable b.old t.old n d × (l ≤ word_limit) }
    ensures { Replies b.old b.new (told result.answer) (grow_toward (state_of b.old) n d l)
        × (t.new ≡ t.old) × (result.kept ≡ (ask && toward_keeps (state_of b.old) n d)) }
{
    if let Err(refusal) = refuse::node_refusal(b, n, false, true) {
        return Tested {
            answer: Err(refusal),
            kept: ask,
        };
    }
    let p = prepare_tested::prepare_asked(b, t, n, d, ask);
    let answer = core_calls::grow_prepared(b, n, d, l);
    Tested {
        answer,
        kept: p.kept,
    }
}

// Node n grows by a length in direction d: below 0, upward turns to downward.
pub fn grow_along(
    b: &mut [i64],
    t: &mut [i64],
    n: usize,
    d: usize,
    length: i64,
    ask: bool,
) -> Tested
    requires { MemoryPreparable b.old t.old n d × (d ≤ 1) × (non_neg length ≡ false → d ≡ 1) }
    ensures { Replies b.old b.new (told result.answer) (grow_dual_node (state_of b.old) n (along d length))
        × (t.new ≡ t.old) × (result.kept ≡ (ask && grow_keeps (state_of b.old) n (along d length))) }
{
    let l = words::magnitude(length);
    if l == 0 {
        let answer = core_calls::grow_none(b, n, d, length);
        return Tested { answer, kept: ask };
    }
    if words::non_negative(length) {
        return grow_toward(b, t, n, d, l, ask);
    }
    grow_toward(b, t, n, DOWN, l, ask)
}

// Node n grows by a length: below 0 it shrinks.
pub fn grow_dual_node(b: &mut [i64], t: &mut [i64], n: usize, length: i64, ask: bool) -> Tested
    requires { Usable b.old t.old }
    ensures { Replies b.old b.new (told result.answer) (grow_dual_node (state_of b.old) n length)
        × (t.new ≡ t.old) × (result.kept ≡ (ask && grow_keeps (state_of b.old) n length)) }
{
    grow_along(b, t, n, UP, length, ask)
}

// A node n in grow state x, which is not Stay, grows on a free answer with a limit; any other answer is handed back.
fn advance_by(b: &mut [i64], t: &mut [i64], n: usize, x: usize, ask: bool) -> Tested
    requires { Usable b.old t.old }
    ensures { Replies b.old b.new (told result.answer)
        (advance_by n x (max_update_length (state_of b.old) n (toward x) true))
        × (t.new ≡ t.old) × (result.kept ≡ (ask && moves_keeps (state_of b.old) n x)) }
{
    let d = advance::direction(x);
    let first = length_prepared(b, t, n, d, ask);
    let Ok(answer) = first.answer else {
        return first;
    };
    let Answer::Length(found) = answer else {
        return first;
    };
    let MaxUpdateLength::NonZeroGrow(length, _) = found else {
        return first;
    };
    let second = grow_along(b, t, n, d, length, ask);
    let last = second.answer;
    Tested {
        answer: last,
        kept: first.kept & second.kept,
    }
}

// Node n grows by its own length answer, in the direction of its grow state.
pub fn advance(b: &mut [i64], t: &mut [i64], n: usize, ask: bool) -> Tested
    requires { Usable b.old t.old }
    ensures { Replies b.old b.new (told result.answer) (advance (state_of b.old) n)
        × (t.new ≡ t.old) × (result.kept ≡ (ask && advance_keeps (state_of b.old) n)) }
{
    if let Err(refusal) = refuse::node_refusal(b, n, false, false) {
        return Tested {
            answer: Err(refusal),
            kept: ask,
        };
    }
    let x = node::grow_state(b, n);
    if x == node::STAY {
        return Tested {
            answer: Ok(Answer::Done),
            kept: ask,
        };
    }
    advance_by(b, t, n, x, ask)
}
