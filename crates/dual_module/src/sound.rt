// The calls on memory that has passed the tests (refusals 1 and 2). What refuses the call itself (3 to 9) is tested first; before that
// nothing is written. A call that prepares needs a scratch that is all zero, and tells, where asked, whether the block is certainly sound
// after it.

ghost use Rattle.std.specs.Prelude.{◌≡◌, true, ◌&&◌, length};
ghost use Rattle.graph.specs.Layout.{state_of, memory_refusal};
ghost use Rattle.pass.specs.Scratch.{zero_scratch};
ghost use Rattle.calls.specs.Keeps.{prepare_keeps, length_keeps, grow_keeps, advance_keeps};
ghost use Rattle.answers.specs.Outcome.{told};
ghost use Rattle.dual_module.specs.inner.Known.{KnownZero};
ghost use Rattle.dual_module.specs.Called.{StateCalled, PrepareCalled, LengthCalled, GrowCalled, AdvanceCalled, ClearCalled};

use answers::Answer;
use calls::tested::Tested;
use calls::{advance, core_calls, refuse, tested};
use graph::dual_node::UP;
use graph::{node, words};
use refusal::Refusal;

// A call on memory that has passed the tests: its answer, whether the block is certainly sound after it, and whether the scratch is known
// to be all zero.
#[derive(Clone, Copy)]
pub struct Known<R = Refusal> {
    pub answer: Result<Answer, R>,
    pub kept: bool,
    pub zero: bool,
}

// Every word of the scratch is set to zero, unless it is known to be so.
pub fn clear_unless(t: &mut [i64], zero: bool)
    requires { KnownZero zero t.old }
    ensures { t.new ≡ zero_scratch (length t.old) }
{
    if zero {
        return;
    }
    crate::clear_scratch(t);
}

// The call wrote nothing: as much is known as before it.
pub fn as_before<R>(answer: Result<Answer, R>, ask: bool, zero: bool) -> Known<R>
    ensures { (result.answer ≡ answer) × (result.kept ≡ ask) × (result.zero ≡ zero) }
{
    Known {
        answer,
        kept: ask,
        zero,
    }
}

// The core has run, and left the scratch all zero.
pub fn after_core<R>(told: Tested<R>) -> Known<R>
    ensures { (result.answer ≡ told.answer) × (result.kept ≡ told.kept) × (result.zero ≡ true) }
{
    let answer = told.answer;
    Known {
        answer,
        kept: told.kept,
        zero: true,
    }
}

// Node n gets the grow state x.
pub fn set_grow_state(b: &mut [i64], t: &[i64], n: usize, x: usize) -> Result<Answer, Refusal>
    requires { memory_refusal b.old t.now ≡ 0 }
    ensures { StateCalled b.old t.now n x b.new (told result) }
{
    refuse::node_refusal(b, n, node::SHRINK < x, false)?;
    core_calls::set_grow_state(b, n, x)
}

// Node n is prepared to grow in direction d.
pub fn prepare_dual_node_growth(
    b: &mut [i64],
    t: &mut [i64],
    n: usize,
    d: usize,
    ask: bool,
    zero: bool,
) -> Known
    requires { (memory_refusal b.old t.old ≡ 0) × KnownZero zero t.old }
    ensures { PrepareCalled b.old t.old n d b.new t.new (told result.answer)
        × (result.kept ≡ (ask && prepare_keeps (state_of b.old) n d)) × KnownZero result.zero t.new }
{
    if let Err(refusal) = refuse::node_refusal(b, n, UP < d, true) {
        return as_before(Err(refusal), ask, zero);
    }
    clear_unless(t, zero);
    after_core(tested::prepare_dual_node_growth(b, t, n, d, ask))
}

// How far node n may grow in direction d; `first` says whether it is prepared first.
pub fn compute_maximum_update_length_dual_node(
    b: &mut [i64],
    t: &mut [i64],
    n: usize,
    d: usize,
    first: bool,
    ask: bool,
    zero: bool,
) -> Known
    requires { (memory_refusal b.old t.old ≡ 0) × KnownZero zero t.old }
    ensures { LengthCalled b.old t.old n d first b.new t.new (told result.answer)
        × (result.kept ≡ (ask && length_keeps (state_of b.old) n d first)) × KnownZero result.zero t.new }
{
    if first {
        if let Err(refusal) = refuse::node_refusal(b, n, UP < d, true) {
            return as_before(Err(refusal), ask, zero);
        }
        clear_unless(t, zero);
        return after_core(tested::length_prepared(b, t, n, d, ask));
    }
    as_before(core_calls::length_unprepared(b, n, d), ask, zero)
}

// Node n grows by a length: below 0 it shrinks.
pub fn grow_dual_node(
    b: &mut [i64],
    t: &mut [i64],
    n: usize,
    length: i64,
    ask: bool,
    zero: bool,
) -> Known
    requires { (memory_refusal b.old t.old ≡ 0) × KnownZero zero t.old }
    ensures { GrowCalled b.old t.old n length b.new t.new (told result.answer)
        × (result.kept ≡ (ask && grow_keeps (state_of b.old) n length)) × KnownZero result.zero t.new }
{
    if words::magnitude(length) == 0 {
        return as_before(core_calls::grow_none(b, n, 1, length), ask, zero);
    }
    if let Err(refusal) = refuse::node_refusal(b, n, false, true) {
        return as_before(Err(refusal), ask, zero);
    }
    clear_unless(t, zero);
    after_core(tested::grow_dual_node(b, t, n, length, ask))
}

// Node n grows by all of its own length answer.
pub fn advance(b: &mut [i64], t: &mut [i64], n: usize, ask: bool, zero: bool) -> Known
    requires { (memory_refusal b.old t.old ≡ 0) × KnownZero zero t.old }
    ensures { AdvanceCalled b.old t.old n b.new t.new (told result.answer)
        × (result.kept ≡ (ask && advance_keeps (state_of b.old) n)) × KnownZero result.zero t.new }
{
    if advance::moves(b, n) {
        if let Err(refusal) = refuse::node_refusal(b, n, false, true) {
            return as_before(Err(refusal), ask, zero);
        }
        clear_unless(t, zero);
        return after_core(tested::advance(b, t, n, ask));
    }
    as_before(advance::advance_none(b, n), ask, zero)
}

// Everything but the graph is emptied.
pub fn clear(b: &mut [i64], t: &[i64]) -> Result<Answer, Refusal>
    requires { memory_refusal b.old t.now ≡ 0 }
    ensures { ClearCalled b.old t.now b.new (told result) }
{
    core_calls::clear_all(b)
}
