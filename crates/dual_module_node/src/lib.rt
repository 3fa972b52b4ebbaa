#![tactic(auto)]

// A node read on memory that a host lends. Block and scratch are tested first (refusals 1 and 2); the call itself is in module `sound`.
// Nothing is written.

ghost use Rattle.dual_module_node.specs.Outcome.{node_answer};
ghost use Rattle.dual_module_node.specs.ReadNode.{ReadNodeCalled};

use refusal::Refusal;

pub mod sound; // the call behind the tests

// What is told of a node. A parent is the blossom that the node lies in, as its number + 1, or 0 for none.
#[derive(Clone, Copy)]
pub enum NodeRead {
    Defect(usize, usize, usize, usize), // its vertex, grow state, parent and dual variable
    Blossom(usize, usize, usize, usize), // its first member, grow state, parent and dual variable
}

// Node n: what it stands for, its grow state, its parent and its dual variable.
pub fn read_node(b: &[i64], t: &[i64], n: usize) -> Result<NodeRead, Refusal>
    ensures { ReadNodeCalled b.now t.now n (node_answer result) }
{
    memory_tests::refuse::refusal(b, t)?;
    sound::read_node(b, t, n)
}
