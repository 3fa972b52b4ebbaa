#![tactic(auto)]

// The calls of the C library (include/fusion_blossom.h) in one archive. Each is the call of the same name in a crate
// c_api.., and promises the same: a library's own exports stay out of an archive.

ghost use Rattle.c_api.specs.Told.{OpenTold, DefectTold, BlossomTold, StateTold, PrepareTold, LengthTold, GrowTold, AdvanceTold, ClearTold, VertexTold, TableTold, ContactsTold};
ghost use Rattle.c_api_sheet.specs.Told.{SheetTold};
ghost use Rattle.c_api_check.specs.Told.{CheckTold};
ghost use Rattle.c_api_round.specs.Told.{RenewTold, PrepareAllTold, RoundTold, GroupTold};
ghost use Rattle.c_api_remove.specs.Told.{RemoveTold};
ghost use Rattle.c_api_node.specs.Told.{ReadNodeTold};
ghost use Rattle.c_api_gap.specs.Told.{GapTold};
ghost use Rattle.c_api_modifier.specs.Told.{ModifierTold};
ghost use Rattle.c_api_calls.specs.Told.{CallsTold};

// A graph of v vertices and e edges is opened in the block, with places for n nodes and a store of l words; the
// scratch is only measured.
#[unsafe(no_mangle)]
pub extern "C" fn fb_open(
    block: &mut [i64],
    scratch: &[i64],
    edges: &[i64],
    virtuals: &[i64],
    v: usize,
    e: usize,
    n: usize,
    l: usize,
    answer: &mut [usize],
) -> usize
    ensures { OpenTold block.old scratch.now v e n l edges.now virtuals.now
        block.new answer.old answer.new result }
{
    c_api::fb_open(block, scratch, edges, virtuals, v, e, n, l, answer)
}

// The next node is a defect at a vertex.
#[unsafe(no_mangle)]
pub extern "C" fn fb_insert_defect(
    block: &mut [i64],
    scratch: &mut [i64],
    vertex: usize,
    state: usize,
    answer: &mut [usize],
) -> usize
    ensures { DefectTold block.old scratch.old vertex state block.new scratch.new
        answer.old answer.new result }
{
    c_api::fb_insert_defect(block, scratch, vertex, state, answer)
}

// The next node is a blossom of the circle's nodes.
#[unsafe(no_mangle)]
pub extern "C" fn fb_insert_blossom(
    block: &mut [i64],
    scratch: &mut [i64],
    circle: &[i64],
    state: usize,
    answer: &mut [usize],
) -> usize
    ensures { BlossomTold block.old scratch.old state circle.now block.new
        scratch.new answer.old answer.new result }
{
    c_api::fb_insert_blossom(block, scratch, circle, state, answer)
}

// A node gets a grow state.
#[unsafe(no_mangle)]
pub extern "C" fn fb_set_grow_state(
    block: &mut [i64],
    scratch: &[i64],
    node: usize,
    state: usize,
    answer: &mut [usize],
) -> usize
    ensures { StateTold block.old scratch.now node state block.new answer.old answer.new result }
{
    c_api::fb_set_grow_state(block, scratch, node, state, answer)
}

// A node is prepared to grow in a direction.
#[unsafe(no_mangle)]
pub extern "C" fn fb_prepare(
    block: &mut [i64],
    scratch: &mut [i64],
    node: usize,
    direction: usize,
    answer: &mut [usize],
) -> usize
    ensures { PrepareTold block.old scratch.old node direction block.new scratch.new
        answer.old answer.new result }
{
    c_api::fb_prepare(block, scratch, node, direction, answer)
}

// How far a node may grow in a direction; `first` says whether it is prepared first.
#[unsafe(no_mangle)]
pub extern "C" fn fb_max_update_length(
    block: &mut [i64],
    scratch: &mut [i64],
    node: usize,
    direction: usize,
    first: bool,
    answer: &mut [usize],
) -> usize
    ensures { LengthTold block.old scratch.old node direction first block.new
        scratch.new answer.old answer.new result }
{
    c_api::fb_max_update_length(block, scratch, node, direction, first, answer)
}

// A node grows by a length: below 0 it shrinks.
#[unsafe(no_mangle)]
pub extern "C" fn fb_grow(
    block: &mut [i64],
    scratch: &mut [i64],
    node: usize,
    length: i64,
    answer: &mut [usize],
) -> usize
    ensures { GrowTold block.old scratch.old node length block.new scratch.new
        answer.old answer.new result }
{
    c_api::fb_grow(block, scratch, node, length, answer)
}

// A node grows by all of its own length answer.
#[unsafe(no_mangle)]
pub extern "C" fn fb_advance(
    block: &mut [i64],
    scratch: &mut [i64],
    node: usize,
    answer: &mut [usize],
) -> usize
    ensures { AdvanceTold block.old scratch.old node block.new scratch.new
        answer.old answer.new result }
{
    c_api::fb_advance(block, scratch, node, answer)
}

// Everything but the graph is emptied.
#[unsafe(no_mangle)]
pub extern "C" fn fb_clear(block: &mut [i64], scratch: &[i64], answer: &mut [usize]) -> usize
    ensures { ClearTold block.old scratch.now block.new answer.old answer.new result }
{
    c_api::fb_clear(block, scratch, answer)
}

// The representative vertex of a node; block and scratch are only read.
#[unsafe(no_mangle)]
pub extern "C" fn fb_representative_vertex(
    block: &[i64],
    scratch: &[i64],
    node: usize,
    answer: &mut [usize],
) -> usize
    ensures { VertexTold block.now scratch.now node answer.old answer.new result }
{
    c_api::fb_representative_vertex(block, scratch, node, answer)
}

// The growth of every side is written to a list of two words for each edge.
#[unsafe(no_mangle)]
pub extern "C" fn fb_read_table(
    block: &[i64],
    scratch: &[i64],
    list: &mut [i64],
    answer: &mut [usize],
) -> usize
    ensures { TableTold block.now scratch.now list.old list.new answer.old
        answer.new result }
{
    c_api::fb_read_table(block, scratch, list, answer)
}

// The contacts are written to the front of a list of three words for each edge; when done, the answer has their
// count behind its case.
#[unsafe(no_mangle)]
pub extern "C" fn fb_contacts(
    block: &[i64],
    scratch: &[i64],
    list: &mut [i64],
    answer: &mut [usize],
) -> usize
    ensures { ContactsTold block.now scratch.now list.old list.new
        answer.old answer.new result }
{
    c_api::fb_contacts(block, scratch, list, answer)
}

// A graph is opened in the block with the weights of the sheet, which are written into the third words of the
// edges; the scratch is only
// measured.
#[unsafe(no_mangle)]
pub extern "C" fn fb_open_sheet(
    block: &mut [i64],
    scratch: &[i64],
    edges: &mut [i64],
    sheet: &[i64],
    virtuals: &[i64],
    v: usize,
    e: usize,
    n: usize,
    l: usize,
    answer: &mut [usize],
) -> usize
    ensures { SheetTold block.old scratch.now v e n l
        edges.old sheet.now virtuals.now edges.new block.new
        answer.old answer.new result }
{
    c_api_sheet::fb_open_sheet(block, scratch, edges, sheet, virtuals, v, e, n, l, answer)
}

// Whether a table from another decoder is right. Everything but the answer list is only read.
#[unsafe(no_mangle)]
pub extern "C" fn fb_check_table(
    edges: &[i64],
    virtuals: &[i64],
    defects: &[i64],
    duals: &[i64],
    growths: &[i64],
    distances: &[i64],
    v: usize,
    e: usize,
    answer: &mut [usize],
) -> usize
    ensures { CheckTold v e edges.now virtuals.now defects.now duals.now
        growths.now distances.now answer.old answer.new result }
{
    c_api_check::fb_check_table(
        edges, virtuals, defects, duals, growths, distances, v, e, answer,
    )
}

// The nodes in Stay leave the active list.
#[unsafe(no_mangle)]
pub extern "C" fn fb_renew_active_list(block: &mut [i64], answer: &mut [usize]) -> usize
    ensures { RenewTold block.old block.new answer.old answer.new result }
{
    c_api_round::fb_renew_active_list(block, answer)
}

// Every active node is prepared, first those that shrink.
#[unsafe(no_mangle)]
pub extern "C" fn fb_prepare_all(
    block: &mut [i64],
    second: &mut [i64],
    scratch: &mut [i64],
    answer: &mut [usize],
) -> usize
    ensures { PrepareAllTold block.old second.old scratch.old block.new
        second.new scratch.new answer.old answer.new result }
{
    c_api_round::fb_prepare_all(block, second, scratch, answer)
}

// A round: every active node moves by a length, first those that shrink.
#[unsafe(no_mangle)]
pub extern "C" fn fb_grow_all(
    block: &mut [i64],
    second: &mut [i64],
    scratch: &mut [i64],
    length: i64,
    answer: &mut [usize],
) -> usize
    ensures { RoundTold block.old second.old scratch.old length block.new
        second.new scratch.new answer.old answer.new result }
{
    c_api_round::fb_grow_all(block, second, scratch, length, answer)
}

// How far all active nodes may move; what stands in the way of them is listed in `entries`, 5 words each.
#[unsafe(no_mangle)]
pub extern "C" fn fb_group_max_update_length(
    block: &mut [i64],
    second: &mut [i64],
    scratch: &mut [i64],
    entries: &mut [usize],
    answer: &mut [usize],
) -> usize
    ensures { GroupTold block.old second.old scratch.old entries.old
        block.new second.new scratch.new entries.new answer.old
        answer.new result }
{
    c_api_round::fb_group_max_update_length(block, second, scratch, entries, answer)
}

// A blossom of dual variable 0 is opened: its members are outermost again, and its number is not given out again
// before a
// clear.
#[unsafe(no_mangle)]
pub extern "C" fn fb_remove_blossom(
    block: &mut [i64],
    scratch: &mut [i64],
    node: usize,
    answer: &mut [usize],
) -> usize
    ensures { RemoveTold block.old scratch.old node block.new scratch.new
        answer.old answer.new result }
{
    c_api_remove::fb_remove_blossom(block, scratch, node, answer)
}

// A node: what it stands for, its grow state, its parent and its dual variable; block and scratch are only read.
#[unsafe(no_mangle)]
pub extern "C" fn fb_read_node(
    block: &[i64],
    scratch: &[i64],
    node: usize,
    answer: &mut [usize],
) -> usize
    ensures { ReadNodeTold block.now scratch.now node
        answer.old answer.new result }
{
    c_api_node::fb_read_node(block, scratch, node, answer)
}

// The gap of an edge: inner, over by an excess, or what is left of its weight.
#[unsafe(no_mangle)]
pub extern "C" fn fb_gap(block: &[i64], scratch: &[i64], edge: usize, answer: &mut [usize]) -> usize
    ensures { GapTold block.now scratch.now edge answer.old answer.new result }
{
    c_api_gap::fb_gap(block, scratch, edge, answer)
}

// For each pair of words, an edge and a weight, the edge takes the weight, until the next clear.
#[unsafe(no_mangle)]
pub extern "C" fn fb_load_edge_modifier(
    block: &mut [i64],
    scratch: &[i64],
    pairs: &[i64],
    answer: &mut [usize],
) -> usize
    ensures { ModifierTold block.old scratch.now pairs.now block.new
        answer.old answer.new result }
{
    c_api_modifier::fb_load_edge_modifier(block, scratch, pairs, answer)
}

// Calls are made one after another, four words each; the answer of each stands in five numbers of `answers`. Made
// are those that have room.
#[unsafe(no_mangle)]
pub extern "C" fn fb_calls(
    block: &mut [i64],
    scratch: &mut [i64],
    calls: &[i64],
    circles: &[i64],
    answers: &mut [usize],
    answer: &mut [usize],
) -> usize
    ensures { CallsTold block.old scratch.old calls.now circles.now answers.old
        block.new scratch.new answers.new answer.old answer.new result }
{
    c_api_calls::fb_calls(block, scratch, calls, circles, answers, answer)
}
