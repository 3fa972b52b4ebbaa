#![tactic(auto)]

// The gap of an edge on memory that a host lends. Block and scratch are tested first (refusals 1 and 2); the call itself is in module
// `sound`. Nothing is written.

ghost use Rattle.dual_module_gap.specs.Outcome.{gap_answer};
ghost use Rattle.dual_module_gap.specs.GapRead.{GapRead};

use gap::Gap;
use refusal::Refusal;

pub mod sound; // the call behind the tests

// The gap of edge e.
pub fn edge_gap(b: &[i64], t: &[i64], e: usize) -> Result<Gap, Refusal>
    ensures { GapRead b.now t.now e (gap_answer result) }
{
    memory_tests::refuse::refusal(b, t)?;
    sound::edge_gap(b, t, e)
}
