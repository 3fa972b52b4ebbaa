#![tactic(auto)]

// Reading a node, exported for C as the calls of `c_api` are: what is told stands at the front of the answer list, in
// numbers. Its class is the case of the answer, so that five numbers tell all of it.

ghost use Rattle.std.specs.Prelude.{◌≤◌, length};
ghost use Rattle.answers.specs.Numbers.{Tells};
ghost use Rattle.dual_module_node.specs.Outcome.{node_as, node_by};
ghost use Rattle.c_api_node.specs.Told.{read_node_numbers, ReadNodeTold};

use dual_module_node::NodeRead;
use refusal::Numbered;

// The numbers of a node.
fn tell_read(list: &mut [usize], r: NodeRead) -> usize
    requires { 5 ≤ length list.old }
    ensures { Tells (read_node_numbers (node_as r)) list.old list.new result }
{
    match r {
        NodeRead::Defect(v, x, p, y) => answers::front(list, &[15, v, x, p, y]),
        NodeRead::Blossom(m, x, p, y) => answers::front(list, &[16, m, x, p, y]),
    }
}

// The same of an answer; how many they are.
pub fn tell_node<R: Numbered>(list: &mut [usize], a: Result<NodeRead, R>) -> usize
    requires { 5 ≤ length list.old }
    ensures { Tells (read_node_numbers (node_by R.number_of a)) list.old list.new result }
{
    match a {
        Ok(r) => tell_read(list, r),
        Err(refusal) => answers::tell_refusal(list, refusal),
    }
}

// A node: what it stands for, its grow state, its parent and its dual variable; block and scratch are only read.
#[unsafe(no_mangle)]
pub extern "C" fn fb_read_node(
    block: &[i64],
    scratch: &[i64],
    node: usize,
    answer: &mut [usize],
) -> usize
    ensures { ReadNodeTold block.now scratch.now node
        answer.old answer.new result }
{
    if answer.len() < 5 {
        return c_api::answer::refuse_short(answer);
    }
    let a = dual_module_node::read_node(block, scratch, node);
    tell_node(answer, a)
}
