// The length of the group: all active nodes are prepared, then asked.

ghost use Rattle.std.specs.Prelude.{◌≡◌, ◌*◌, length};
ghost use Rattle.graph.specs.Layout.{state_of};
ghost use Rattle.calls.specs.inner.Reply.{Usable};
ghost use Rattle.calls.specs.Group.{found_as, group_told};
ghost use Rattle.calls.specs.Round.{answers_of};
ghost use Rattle.round_answers.specs.inner.Asked.{Askable};
ghost use Rattle.round.specs.inner.Group.{ListedGroup, AskedGroup, GroupTried};

use calls::group::GroupMaxUpdateLength;
use refusal::Refusal;
use round_answers::node_answers;
use round_list::listed;
use round_trial::trial;

// Conflicts and stops are listed.
fn list_group(b: &[i64], list: &mut [usize]) -> GroupMaxUpdateLength
    requires { Askable b.now × (length list.old ≡ 5 * (state_of b.now).node_limit) }
    ensures { ListedGroup (answers_of (state_of b.now) (state_of b.now).active) list.old list.new (found_as result) }
{
    let k = listed::list_conflicts(b, list);
    let j = listed::list_stops(b, list, k);
    GroupMaxUpdateLength::Conflicts(k, j - k)
}

// What prepared active nodes answer together.
fn ask(b: &[i64], list: &mut [usize]) -> GroupMaxUpdateLength
    requires { Askable b.now × (length list.old ≡ 5 * (state_of b.now).node_limit) }
    ensures { AskedGroup (answers_of (state_of b.now) (state_of b.now).active) list.old list.new (found_as result) }
{
    if node_answers::all_free(b) {
        return node_answers::free_group(b);
    }
    list_group(b, list)
}

// All active nodes are prepared and asked; what stands in the way of them is listed.
pub fn compute_maximum_update_length(
    b: &mut [i64],
    t: &mut [i64],
    list: &mut [usize],
) -> Result<GroupMaxUpdateLength, Refusal>
    requires { Usable b.old t.old × (length list.old ≡ 5 * (state_of b.old).node_limit) }
    ensures { GroupTried b.old b.new list.old list.new (group_told result) × (t.new ≡ t.old) }
{
    trial::in_turn(b, t, 0)?;
    node_answers::first_refusal(b)?;
    Ok(ask(b, list))
}
