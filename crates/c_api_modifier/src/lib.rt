#![tactic(auto)]

// A change of weights, exported for C as the calls of `c_api` are: what is told stands at the front of the answer list, in
// numbers.

ghost use Rattle.c_api_modifier.specs.Told.{ModifierTold};

// For each pair of words, an edge and a weight, the edge takes the weight, until the next clear.
#[unsafe(no_mangle)]
pub extern "C" fn fb_load_edge_modifier(
    block: &mut [i64],
    scratch: &[i64],
    pairs: &[i64],
    answer: &mut [usize],
) -> usize
    ensures { ModifierTold block.old scratch.now pairs.now block.new
        answer.old answer.new result }
{
    if answer.len() < 5 {
        return c_api::answer::refuse_short(answer);
    }
    let a = dual_module_modifier::load_edge_modifier(block, scratch, pairs);
    answers::tell(answer, a)
}
