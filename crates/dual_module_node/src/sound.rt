// A node read on memory that has passed the tests (refusals 1 and 2): the number of the node is tested (3).

ghost use Rattle.std.specs.Prelude.{◌≡◌, false};
ghost use Rattle.graph.specs.Layout.{state_of, memory_refusal};
ghost use Rattle.graph.specs.Form.{Formed};
ghost use Rattle.calls.specs.Refuse.{bad_node};
ghost use Rattle.dual_module_node.specs.Outcome.{node_as, node_answer};
ghost use Rattle.dual_module_node.specs.ReadNode.{read_node, ReadNodeCalled};

use crate::NodeRead;
use calls::refuse;
use graph::{node, rows};
use refusal::Refusal;

// Node n, which stands and is not removed.
fn told(b: &[i64], n: usize) -> NodeRead
    requires { Formed b.now × (bad_node (state_of b.now) n ≡ false) }
    ensures { node_as result ≡ read_node (state_of b.now) n }
{
    let v = rows::vertex_count(b);
    let class = node::class(b, n);
    let x = node::grow_state(b, n);
    let p = node::parent(b, n);
    let y = node::dual(b, n);
    if class < v {
        NodeRead::Defect(class, x, p, y)
    } else {
        NodeRead::Blossom(class - v, x, p, y)
    }
}

// Node n: what it stands for, its grow state, its parent and its dual variable.
pub fn read_node(b: &[i64], t: &[i64], n: usize) -> Result<NodeRead, Refusal>
    requires { memory_refusal b.now t.now ≡ 0 }
    ensures { ReadNodeCalled b.now t.now n (node_answer result) }
{
    if refuse::bad_node(b, n) {
        return Err(Refusal::NoSuch);
    }
    Ok(told(b, n))
}
