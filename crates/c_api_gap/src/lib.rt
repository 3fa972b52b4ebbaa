#![tactic(auto)]

// The gap of an edge, exported for C as the calls of `c_api` are: what is told stands at the front of the answer list, in
// numbers.

ghost use Rattle.std.specs.Prelude.{◌≤◌, length};
ghost use Rattle.answers.specs.Numbers.{Tells};
ghost use Rattle.dual_module_gap.specs.Outcome.{gap_by};
ghost use Rattle.c_api_gap.specs.Told.{found_numbers, gap_numbers, GapTold};

use gap::Gap;
use refusal::Numbered;

// The numbers of a gap are written over the front of the list; how many they are.
fn tell_found(list: &mut [usize], g: Gap) -> usize
    requires { 5 ≤ length list.old }
    ensures { Tells (found_numbers g) list.old list.new result }
{
    match g {
        Gap::Inner => answers::front(list, &[17]),
        Gap::Over(x) => answers::front(list, &[18, x]),
        Gap::Left(x) => answers::front(list, &[19, x]),
    }
}

// The same of an answer.
pub fn tell_gap<R: Numbered>(list: &mut [usize], a: Result<Gap, R>) -> usize
    requires { 5 ≤ length list.old }
    ensures { Tells (gap_numbers (gap_by R.number_of a)) list.old list.new result }
{
    match a {
        Ok(g) => tell_found(list, g),
        Err(refusal) => answers::tell_refusal(list, refusal),
    }
}

// The gap of an edge: inner, over by an excess, or what is left of its weight.
#[unsafe(no_mangle)]
pub extern "C" fn fb_gap(block: &[i64], scratch: &[i64], edge: usize, answer: &mut [usize]) -> usize
    ensures { GapTold block.now scratch.now edge answer.old answer.new result }
{
    if answer.len() < 5 {
        return c_api::answer::refuse_short(answer);
    }
    let a = dual_module_gap::edge_gap(block, scratch, edge);
    tell_gap(answer, a)
}
