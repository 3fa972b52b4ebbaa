#![tactic(auto)]

// Opening a graph from a sheet, exported for C as the calls of `c_api` are: what is told stands at the front of the answer list, in numbers.

ghost use Rattle.std.specs.Prelude.{◌≤◌, length};
ghost use Rattle.answers.specs.Numbers.{Tells};
ghost use Rattle.sheet.specs.Outcome.{opened_told};
ghost use Rattle.c_api_sheet.specs.Told.{sheet_numbers, SheetTold};

use refusal::Refusal;

// The numbers of such an opening are written over the front of the list; how many they are.
fn tell_sheet(list: &mut [usize], opened: Result<usize, Refusal>) -> usize
    requires { 5 ≤ length list.old }
    ensures { Tells (sheet_numbers (opened_told opened)) list.old list.new result }
{
    match opened {
        Ok(vanished) => answers::front(list, &[12, vanished]),
        Err(refusal) => answers::front(list, &[11, refusal.number()]),
    }
}

// A graph is opened in the block with the weights of the sheet, which are written into the third words of the edges; the scratch is only
// measured.
#[unsafe(no_mangle)]
pub extern "C" fn fb_open_sheet(
    block: &mut [i64],
    scratch: &[i64],
    edges: &mut [i64],
    sheet: &[i64],
    virtuals: &[i64],
    v: usize,
    e: usize,
    n: usize,
    l: usize,
    answer: &mut [usize],
) -> usize
    ensures { SheetTold block.old scratch.now v e n l
        edges.old sheet.now virtuals.now edges.new block.new
        answer.old answer.new result }
{
    if answer.len() < 5 {
        return c_api::answer::refuse_short(answer);
    }
    let opened = sheet::open::open_sheet(block, scratch, v, e, n, l, edges, sheet, virtuals);
    tell_sheet(answer, opened)
}
