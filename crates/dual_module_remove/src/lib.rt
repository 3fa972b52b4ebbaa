#![tactic(auto)]

// Opening a blossom on memory that a host lends. Block and scratch are tested first (refusals 1 and 2), then what refuses
// the opening before it prepares (3, 6, 15, 9); until then nothing is written. Then the scratch is set to zero and the
// core runs.

ghost use Rattle.answers.specs.Outcome.{told};
ghost use Rattle.dual_module_remove.specs.Called.{RemoveCalled};

use answers::Answer;
use refusal::Refusal;

// Node n, a blossom of dual variable 0, is opened: its members are outermost again and hold their sides, and its number
// stands for nothing.
pub fn remove_blossom(b: &mut [i64], t: &mut [i64], n: usize) -> Result<Answer, Refusal>
    ensures { RemoveCalled b.old t.old n b.new t.new (told result) }
{
    memory_tests::refuse::refusal(b, t)?;
    remove::remove_refusal(b, n)?;
    dual_module::clear_scratch(t);
    remove::remove_blossom(b, t, n)
}
