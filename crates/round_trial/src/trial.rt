// A trial over the active nodes: the list is renewed, then each Shrink node is prepared or moved, then each Grow node.

ghost use Rattle.std.specs.Prelude.{◌≡◌, ◌<◌, ◌≤◌, true, ◌||◌, length};
ghost use Rattle.graph.specs.State.{shrinking};
ghost use Rattle.graph.specs.Active.{active_in};
ghost use Rattle.graph.specs.Sound.{active_sound, state_sound};
ghost use Rattle.graph.specs.Layout.{state_of};
ghost use Rattle.graph.specs.Form.{Formed};
ghost use Rattle.refusal.specs.Refusal.{refusal_number};
ghost use Rattle.calls.specs.Calls.{toward};
ghost use Rattle.calls.specs.inner.Reply.{MemoryPreparable, Usable};
ghost use Rattle.calls.specs.Round.{begun, tried_by, try_all, none_of};
ghost use Rattle.round_trial.specs.Trial.{node_call, whole_trial};
ghost use Rattle.round_trial.specs.inner.Step.{node_call_at, grown_from, TriedTo, CallsPossible, Shrunk};
ghost use Rattle.graph.specs.Word.{word_limit};

use calls::{advance, core_calls};
use graph::{node, rows};
use refusal::Refusal;

// Node n is prepared in direction d, and moved by l where l is not 0.
fn call_node(b: &mut [i64], t: &mut [i64], n: usize, d: usize, l: usize) -> Result<(), Refusal>
    requires { MemoryPreparable b.old t.old n d × (l ≤ word_limit) }
    ensures { TriedTo b.old b.new (refusal_number result) (tried_by (node_call l d (state_of b.old) n)) × (t.new ≡ t.old) }
{
    if l == 0 {
        core_calls::prepare_toward(b, t, n, d)?;
        return Ok(());
    }
    core_calls::grow_toward(b, t, n, d, l)?;
    Ok(())
}

// Entry i of the active list has its turn, if its node is in grow state x.
fn call_at(b: &mut [i64], t: &mut [i64], i: usize, x: usize, l: usize) -> Result<(), Refusal>
    requires { CallsPossible x b.old t.old × (i < length (state_of b.old).active) × (l ≤ word_limit) }
    ensures { TriedTo b.old b.new (refusal_number result) (node_call_at l x (state_of b.old) i) × (t.new ≡ t.old) }
{
    let n = rows::active_node(b, i);
    if node::grow_state(b, n) == x {
        let d = advance::direction(x);
        return call_node(b, t, n, d, l);
    }
    Ok(())
}

// Each node of the active list that is in grow state x has its turn, up to the first that is refused.
fn phase(b: &mut [i64], t: &mut [i64], x: usize, l: usize) -> Result<(), Refusal>
    requires { CallsPossible x b.old t.old × (l ≤ word_limit) }
    ensures { TriedTo b.old b.new (refusal_number result)
        (try_all (node_call l (toward x)) (begun (state_of b.old)) (active_in (state_of b.old) x))
        × (t.new ≡ t.old) }
{
    let k = rows::active_count(b);
    for i in 0..k {
        call_at(b, t, i, x, l)?;
    }
    Ok(())
}

// Whether no node of the active list is in grow state x.
fn none_in(b: &[i64], x: usize) -> bool
    requires { Formed b.now × (active_sound (state_of b.now) ≡ true) }
    ensures { result ≡ none_of (active_in (state_of b.now) x) }
{
    let k = rows::active_count(b);
    for i in 0..k {
        let n = rows::active_node(b, i);
        if node::grow_state(b, n) == x {
            return false;
        }
    }
    true
}

// Whether Grow nodes may follow: after Shrink nodes the block is tested again.
fn may_grow(b: &[i64]) -> bool
    requires { Formed b.now × (active_sound (state_of b.now) ≡ true) }
    ensures { result ≡ none_of (active_in (state_of b.now) shrinking) || state_sound (state_of b.now) }
{
    if none_in(b, 2) {
        return true;
    }
    memory_tests::sound::sound(b)
}

// The Grow nodes, after the Shrink nodes.
fn grow_phase(b: &mut [i64], t: &mut [i64], l: usize) -> Result<(), Refusal>
    requires { Shrunk b.old t.old × (l ≤ word_limit) }
    ensures { TriedTo b.old b.new (refusal_number result) (grown_from l (state_of b.old)) × (t.new ≡ t.old) }
{
    if none_in(b, 1) {
        return Ok(());
    }
    if may_grow(b) {
        return phase(b, t, 1, l);
    }
    Err(Refusal::Unsound)
}

// The trial of length l, 0 for a preparation; refused as the first that is refused.
pub fn in_turn(b: &mut [i64], t: &mut [i64], l: usize) -> Result<(), Refusal>
    requires { Usable b.old t.old × (l ≤ word_limit) }
    ensures { TriedTo b.old b.new (refusal_number result) (whole_trial l (state_of b.old)) × (t.new ≡ t.old) }
{
    active_list::renew(b);
    phase(b, t, 2, l)?;
    grow_phase(b, t, l)
}
