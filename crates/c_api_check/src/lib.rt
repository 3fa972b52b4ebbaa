#![tactic(auto)]

// The check of a table exported for C, as the calls of `c_api` are: what is told stands at the front of the answer list, in numbers.

ghost use Rattle.std.specs.Prelude.{◌≤◌, length};
ghost use Rattle.answers.specs.Numbers.{Tells};
ghost use Rattle.table_check.specs.Outcome.{verdict_told};
ghost use Rattle.c_api_check.specs.Told.{verdict_numbers, CheckTold};

use refusal::Refusal;

// The numbers of a verdict are written over the front of the list; how many they are.
fn tell_verdict(list: &mut [usize], verdict: Result<bool, Refusal>) -> usize
    requires { 5 ≤ length list.old }
    ensures { Tells (verdict_numbers (verdict_told verdict)) list.old list.new result }
{
    match verdict {
        Ok(right) => answers::front(list, &[13, answers::flag(right)]),
        Err(refusal) => answers::front(list, &[11, refusal.number()]),
    }
}

// Whether a table from another decoder is right. Everything but the answer list is only read.
#[unsafe(no_mangle)]
pub extern "C" fn fb_check_table(
    edges: &[i64],
    virtuals: &[i64],
    defects: &[i64],
    duals: &[i64],
    growths: &[i64],
    distances: &[i64],
    v: usize,
    e: usize,
    answer: &mut [usize],
) -> usize
    ensures { CheckTold v e edges.now virtuals.now defects.now duals.now
        growths.now distances.now answer.old answer.new result }
{
    if answer.len() < 5 {
        return c_api::answer::refuse_short(answer);
    }
    let verdict = table_check::check::check_table(
        v, e, edges, virtuals, defects, duals, growths, distances,
    );
    tell_verdict(answer, verdict)
}
