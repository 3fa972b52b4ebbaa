#![tactic(auto)]

// The calls on all clusters, exported for C as the calls of `c_api` are: what is told stands at the front of the answer list, in numbers.

ghost use Rattle.std.specs.Prelude.{◌≤◌, length};
ghost use Rattle.answers.specs.Numbers.{Tells};
ghost use Rattle.calls.specs.Group.{found_as, group_told};
ghost use Rattle.c_api_round.specs.Told.{group_numbers, RenewTold, PrepareAllTold, RoundTold, GroupTold};

use answers::MaxUpdateLength;
use calls::group::GroupMaxUpdateLength;
use refusal::Refusal;

// The numbers of a group's answer that is no refusal.
fn tell_found(list: &mut [usize], g: GroupMaxUpdateLength) -> usize
    requires { 5 ≤ length list.old }
    ensures { Tells (group_numbers (found_as g)) list.old list.new result }
{
    match g {
        GroupMaxUpdateLength::NonZeroGrow(l, e) => answers::tell_length(
            list,
            MaxUpdateLength::NonZeroGrow(l, e),
        ),
        GroupMaxUpdateLength::Unlimited(e) => answers::tell_length(
            list,
            MaxUpdateLength::Unlimited(e),
        ),
        GroupMaxUpdateLength::Conflicts(c, s) => answers::front(list, &[14, c, s]),
    }
}

// The numbers of the group's answer are written over the front of the list; how many they are.
fn tell_group(list: &mut [usize], g: Result<GroupMaxUpdateLength, Refusal>) -> usize
    requires { 5 ≤ length list.old }
    ensures { Tells (group_numbers (group_told g)) list.old list.new result }
{
    match g {
        Ok(found) => tell_found(list, found),
        Err(refusal) => answers::front(list, &[11, refusal.number()]),
    }
}

// The nodes in Stay leave the active list.
#[unsafe(no_mangle)]
pub extern "C" fn fb_renew_active_list(block: &mut [i64], answer: &mut [usize]) -> usize
    ensures { RenewTold block.old block.new answer.old answer.new result }
{
    if answer.len() < 5 {
        return c_api::answer::refuse_short(answer);
    }
    let a = dual_module_round::renew_active_list(block);
    answers::tell(answer, a)
}

// Every active node is prepared, first those that shrink.
#[unsafe(no_mangle)]
pub extern "C" fn fb_prepare_all(
    block: &mut [i64],
    second: &mut [i64],
    scratch: &mut [i64],
    answer: &mut [usize],
) -> usize
    ensures { PrepareAllTold block.old second.old scratch.old block.new
        second.new scratch.new answer.old answer.new result }
{
    if answer.len() < 5 {
        return c_api::answer::refuse_short(answer);
    }
    let a = dual_module_round::prepare_all(block, second, scratch);
    answers::tell(answer, a)
}

// A round: every active node moves by a length, first those that shrink.
#[unsafe(no_mangle)]
pub extern "C" fn fb_grow_all(
    block: &mut [i64],
    second: &mut [i64],
    scratch: &mut [i64],
    length: i64,
    answer: &mut [usize],
) -> usize
    ensures { RoundTold block.old second.old scratch.old length block.new
        second.new scratch.new answer.old answer.new result }
{
    if answer.len() < 5 {
        return c_api::answer::refuse_short(answer);
    }
    let a = dual_module_round::grow(block, second, scratch, length);
    answers::tell(answer, a)
}

// How far all active nodes may move; what stands in the way of them is listed in `entries`, 5 words each.
#[unsafe(no_mangle)]
pub extern "C" fn fb_group_max_update_length(
    block: &mut [i64],
    second: &mut [i64],
    scratch: &mut [i64],
    entries: &mut [usize],
    answer: &mut [usize],
) -> usize
    ensures { GroupTold block.old second.old scratch.old entries.old
        block.new second.new scratch.new entries.new answer.old
        answer.new result }
{
    if answer.len() < 5 {
        return c_api::answer::refuse_short(answer);
    }
    let g = dual_module_round::compute_maximum_update_length(block, second, scratch, entries);
    tell_group(answer, g)
}
