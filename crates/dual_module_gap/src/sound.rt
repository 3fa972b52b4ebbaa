// The gap of an edge on memory that has passed the tests (refusals 1 and 2): the edge's number is tested (3).

ghost use Rattle.std.specs.Prelude.{◌≡◌};
ghost use Rattle.graph.specs.Layout.{memory_refusal};
ghost use Rattle.dual_module_gap.specs.Outcome.{gap_answer};
ghost use Rattle.dual_module_gap.specs.GapRead.{GapRead};

use gap::Gap;
use graph::rows;
use refusal::Refusal;

// The gap of edge e.
pub fn edge_gap(b: &[i64], t: &[i64], e: usize) -> Result<Gap, Refusal>
    requires { memory_refusal b.now t.now ≡ 0 }
    ensures { GapRead b.now t.now e (gap_answer result) }
{
    if rows::edge_count(b) <= e {
        return Err(Refusal::NoSuch);
    }
    Ok(gap::edge_gap(b, e))
}
