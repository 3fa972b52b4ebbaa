#![tactic(auto)]

// The calls that insert a node, on memory that a host lends. Block and scratch are tested first (refusals 1 and 2), and nothing is written
// before that; the call itself is in module `sound`.

ghost use Rattle.answers.specs.Outcome.{told};
ghost use Rattle.dual_module.specs.Called.{DefectCalled, BlossomCalled};

use answers::Answer;
use refusal::Refusal;

pub mod sound; // the calls behind these tests

// The next node is a defect at vertex v, in grow state x.
pub fn insert_defect(b: &mut [i64], t: &mut [i64], v: usize, x: usize) -> Result<Answer, Refusal>
    ensures { DefectCalled b.old t.old v x b.new t.new (told result) }
{
    memory_tests::refuse::refusal(b, t)?;
    sound::insert_defect(b, t, v, x, false).answer
}

// The next node is a blossom of the circle's nodes, in grow state x.
pub fn insert_blossom(
    b: &mut [i64],
    t: &mut [i64],
    x: usize,
    circle: &[i64],
) -> Result<Answer, Refusal>
    ensures { BlossomCalled b.old t.old x circle.now b.new t.new (told result) }
{
    memory_tests::refuse::refusal(b, t)?;
    sound::insert_blossom(b, t, x, circle, false, false).answer
}
