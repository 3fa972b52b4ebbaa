#![tactic(auto)]

// The calls on memory that a host lends. Block and scratch are tested first (refusals 1 and 2), and nothing is written before that; the
// call itself is in module `sound`.

ghost use Rattle.std.specs.Prelude.{◌≡◌, length};
ghost use Rattle.pass.specs.Scratch.{zero_scratch};
ghost use Rattle.answers.specs.Outcome.{told};
ghost use Rattle.dual_module.specs.Called.{StateCalled, PrepareCalled, LengthCalled, GrowCalled, AdvanceCalled, ClearCalled};

use answers::Answer;
use pass::scratch;
use refusal::Refusal;

pub mod sound; // the calls behind these tests

// Every word of the scratch is set to zero.
pub fn clear_scratch(t: &mut [i64])
    ensures { t.new ≡ zero_scratch (length t.old) }
{
    let n = t.len();
    scratch::wipe(t, 0, n);
}

// Node n gets the grow state x.
pub fn set_grow_state(b: &mut [i64], t: &[i64], n: usize, x: usize) -> Result<Answer, Refusal>
    ensures { StateCalled b.old t.now n x b.new (told result) }
{
    memory_tests::refuse::refusal(b, t)?;
    sound::set_grow_state(b, t, n, x)
}

// Node n is prepared to grow in direction d.
pub fn prepare_dual_node_growth(
    b: &mut [i64],
    t: &mut [i64],
    n: usize,
    d: usize,
) -> Result<Answer, Refusal>
    ensures { PrepareCalled b.old t.old n d b.new t.new (told result) }
{
    memory_tests::refuse::refusal(b, t)?;
    sound::prepare_dual_node_growth(b, t, n, d, false, false).answer
}

// How far node n may grow in direction d; `first` says whether it is prepared first.
pub fn compute_maximum_update_length_dual_node(
    b: &mut [i64],
    t: &mut [i64],
    n: usize,
    d: usize,
    first: bool,
) -> Result<Answer, Refusal>
    ensures { LengthCalled b.old t.old n d first b.new t.new (told result) }
{
    memory_tests::refuse::refusal(b, t)?;
    sound::compute_maximum_update_length_dual_node(b, t, n, d, first, false, false).answer
}

// Node n grows by a length: below 0 it shrinks.
pub fn grow_dual_node(
    b: &mut [i64],
    t: &mut [i64],
    n: usize,
    length: i64,
) -> Result<Answer, Refusal>
    ensures { GrowCalled b.old t.old n length b.new t.new (told result) }
{
    memory_tests::refuse::refusal(b, t)?;
    sound::grow_dual_node(b, t, n, length, false, false).answer
}

// Node n grows by all of its own length answer.
pub fn advance(b: &mut [i64], t: &mut [i64], n: usize) -> Result<Answer, Refusal>
    ensures { AdvanceCalled b.old t.old n b.new t.new (told result) }
{
    memory_tests::refuse::refusal(b, t)?;
    sound::advance(b, t, n, false, false).answer
}

// Everything but the graph is emptied.
pub fn clear(b: &mut [i64], t: &[i64]) -> Result<Answer, Refusal>
    ensures { ClearCalled b.old t.now b.new (told result) }
{
    memory_tests::refuse::refusal(b, t)?;
    sound::clear(b, t)
}
