#![tactic(auto)]

// Opening a blossom, exported for C as the calls of `c_api` are: what is told stands at the front of the answer list, in
// numbers.

ghost use Rattle.c_api_remove.specs.Told.{RemoveTold};

// A blossom of dual variable 0 is opened: its members are outermost again, and its number is not given out again before a
// clear.
#[unsafe(no_mangle)]
pub extern "C" fn fb_remove_blossom(
    block: &mut [i64],
    scratch: &mut [i64],
    node: usize,
    answer: &mut [usize],
) -> usize
    ensures { RemoveTold block.old scratch.old node block.new scratch.new
        answer.old answer.new result }
{
    if answer.len() < 5 {
        return c_api::answer::refuse_short(answer);
    }
    let a = dual_module_remove::remove_blossom(block, scratch, node);
    answers::tell(answer, a)
}
