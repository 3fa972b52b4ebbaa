#![tactic(auto)]

// The calls on lent memory, exported for C. The host lends a list for the answer too: what is told stands at its front, in numbers,
// and each call gives back how many. A list of two to four words is of a wrong length: refused 1, and nothing is called. One that is shorter has no
// room even for that: nothing happens, and 0 is given back.

ghost use Rattle.c_api.specs.Told.{OpenTold, DefectTold, BlossomTold, StateTold, PrepareTold, LengthTold, GrowTold, AdvanceTold, ClearTold, VertexTold, TableTold, ContactsTold};

use answers::Answer;
use refusal::Refusal;

pub mod answer; // an answer as numbers

// A graph of v vertices and e edges is opened in the block, with places for n nodes and a store of l words; the scratch is only measured.
#[unsafe(no_mangle)]
pub extern "C" fn fb_open(
    block: &mut [i64],
    scratch: &[i64],
    edges: &[i64],
    virtuals: &[i64],
    v: usize,
    e: usize,
    n: usize,
    l: usize,
    answer: &mut [usize],
) -> usize
    ensures { OpenTold block.old scratch.now v e n l edges.now virtuals.now
        block.new answer.old answer.new result }
{
    if answer.len() < 5 {
        return answer::refuse_short(answer);
    }
    let opened = open_graph::open::open(block, scratch, v, e, n, l, edges, virtuals);
    answer::tell_opened(answer, opened)
}

// The next node is a defect at a vertex.
#[unsafe(no_mangle)]
pub extern "C" fn fb_insert_defect(
    block: &mut [i64],
    scratch: &mut [i64],
    vertex: usize,
    state: usize,
    answer: &mut [usize],
) -> usize
    ensures { DefectTold block.old scratch.old vertex state block.new scratch.new
        answer.old answer.new result }
{
    if answer.len() < 5 {
        return answer::refuse_short(answer);
    }
    let a = dual_module_insert::insert_defect(block, scratch, vertex, state);
    answers::tell(answer, a)
}

// The next node is a blossom of the circle's nodes.
#[unsafe(no_mangle)]
pub extern "C" fn fb_insert_blossom(
    block: &mut [i64],
    scratch: &mut [i64],
    circle: &[i64],
    state: usize,
    answer: &mut [usize],
) -> usize
    ensures { BlossomTold block.old scratch.old state circle.now block.new
        scratch.new answer.old answer.new result }
{
    if answer.len() < 5 {
        return answer::refuse_short(answer);
    }
    let a = dual_module_insert::insert_blossom(block, scratch, state, circle);
    answers::tell(answer, a)
}

// A node gets a grow state.
#[unsafe(no_mangle)]
pub extern "C" fn fb_set_grow_state(
    block: &mut [i64],
    scratch: &[i64],
    node: usize,
    state: usize,
    answer: &mut [usize],
) -> usize
    ensures { StateTold block.old scratch.now node state block.new answer.old answer.new result }
{
    if answer.len() < 5 {
        return answer::refuse_short(answer);
    }
    let a = dual_module::set_grow_state(block, scratch, node, state);
    answers::tell(answer, a)
}

// A node is prepared to grow in a direction.
#[unsafe(no_mangle)]
pub extern "C" fn fb_prepare(
    block: &mut [i64],
    scratch: &mut [i64],
    node: usize,
    direction: usize,
    answer: &mut [usize],
) -> usize
    ensures { PrepareTold block.old scratch.old node direction block.new scratch.new
        answer.old answer.new result }
{
    if answer.len() < 5 {
        return answer::refuse_short(answer);
    }
    let a = dual_module::prepare_dual_node_growth(block, scratch, node, direction);
    answers::tell(answer, a)
}

// How far a node may grow in a direction; `first` says whether it is prepared first.
#[unsafe(no_mangle)]
pub extern "C" fn fb_max_update_length(
    block: &mut [i64],
    scratch: &mut [i64],
    node: usize,
    direction: usize,
    first: bool,
    answer: &mut [usize],
) -> usize
    ensures { LengthTold block.old scratch.old node direction first block.new
        scratch.new answer.old answer.new result }
{
    if answer.len() < 5 {
        return answer::refuse_short(answer);
    }
    let a = dual_module::compute_maximum_update_length_dual_node(
        block, scratch, node, direction, first,
    );
    answers::tell(answer, a)
}

// A node grows by a length: below 0 it shrinks.
#[unsafe(no_mangle)]
pub extern "C" fn fb_grow(
    block: &mut [i64],
    scratch: &mut [i64],
    node: usize,
    length: i64,
    answer: &mut [usize],
) -> usize
    ensures { GrowTold block.old scratch.old node length block.new scratch.new
        answer.old answer.new result }
{
    if answer.len() < 5 {
        return answer::refuse_short(answer);
    }
    let a = dual_module::grow_dual_node(block, scratch, node, length);
    answers::tell(answer, a)
}

// A node grows by all of its own length answer.
#[unsafe(no_mangle)]
pub extern "C" fn fb_advance(
    block: &mut [i64],
    scratch: &mut [i64],
    node: usize,
    answer: &mut [usize],
) -> usize
    ensures { AdvanceTold block.old scratch.old node block.new scratch.new
        answer.old answer.new result }
{
    if answer.len() < 5 {
        return answer::refuse_short(answer);
    }
    let a = dual_module::advance(block, scratch, node);
    answers::tell(answer, a)
}

// Everything but the graph is emptied.
#[unsafe(no_mangle)]
pub extern "C" fn fb_clear(block: &mut [i64], scratch: &[i64], answer: &mut [usize]) -> usize
    ensures { ClearTold block.old scratch.now block.new answer.old answer.new result }
{
    if answer.len() < 5 {
        return answer::refuse_short(answer);
    }
    let a = dual_module::clear(block, scratch);
    answers::tell(answer, a)
}

// The representative vertex of a node; block and scratch are only read.
#[unsafe(no_mangle)]
pub extern "C" fn fb_representative_vertex(
    block: &[i64],
    scratch: &[i64],
    node: usize,
    answer: &mut [usize],
) -> usize
    ensures { VertexTold block.now scratch.now node answer.old answer.new result }
{
    if answer.len() < 5 {
        return answer::refuse_short(answer);
    }
    let a = dual_module_read::get_representative_vertex(block, scratch, node);
    answers::tell(answer, a)
}

// The growth of every side is written to a list of two words for each edge.
#[unsafe(no_mangle)]
pub extern "C" fn fb_read_table(
    block: &[i64],
    scratch: &[i64],
    list: &mut [i64],
    answer: &mut [usize],
) -> usize
    ensures { TableTold block.now scratch.now list.old list.new answer.old
        answer.new result }
{
    if answer.len() < 5 {
        return answer::refuse_short(answer);
    }
    let a = dual_module_read::read_table(block, scratch, list);
    answers::tell(answer, a)
}

// The contacts are written to the front of a list of three words for each edge; when done, the answer has their count behind its case.
#[unsafe(no_mangle)]
pub extern "C" fn fb_contacts(
    block: &[i64],
    scratch: &[i64],
    list: &mut [i64],
    answer: &mut [usize],
) -> usize
    ensures { ContactsTold block.now scratch.now list.old list.new
        answer.old answer.new result }
{
    if answer.len() < 5 {
        return answer::refuse_short(answer);
    }
    match dual_module_read::contacts(block, scratch, list) {
        Ok(count) => answer::tell_counted(answer, Ok::<Answer, Refusal>(Answer::Done), count),
        Err(refusal) => answer::tell_counted(answer, Err(refusal), 0),
    }
}
