// The call that reads a vertex, on memory that has passed the tests (refusals 1 and 2).

ghost use Rattle.std.specs.Prelude.{◌≡◌};
ghost use Rattle.graph.specs.Layout.{memory_refusal};
ghost use Rattle.answers.specs.Outcome.{told};
ghost use Rattle.dual_module_read.specs.Read.{VertexRead};

use answers::Answer;
use calls::{read, refuse};
use refusal::Refusal;

// The representative vertex of node n.
pub fn get_representative_vertex(b: &[i64], t: &[i64], n: usize) -> Result<Answer, Refusal>
    requires { memory_refusal b.now t.now ≡ 0 }
    ensures { VertexRead b.now t.now n (told result) }
{
    if refuse::bad_node(b, n) {
        return Err(Refusal::NoSuch);
    }
    Ok(Answer::Vertex(read::get_representative_vertex(b, n)))
}
