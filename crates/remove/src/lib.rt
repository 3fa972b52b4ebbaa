#![tactic(auto)]

// Opening a blossom, on a sound block with a scratch that is all zero.

ghost use Rattle.std.specs.Prelude.{◌≡◌, ◌&&◌, ◌<◌, eqb};
ghost use Rattle.graph.specs.State.{node_count, class_of, dual_of};
ghost use Rattle.graph.specs.Layout.{state_of};
ghost use Rattle.graph.specs.Form.{Formed};
ghost use Rattle.refusal.specs.Refusal.{refusal_number};
ghost use Rattle.answers.specs.Outcome.{told};
ghost use Rattle.calls.specs.Remove.{is_blossom, remove_refusal, open_prepared, remove_blossom};
ghost use Rattle.calls.specs.inner.Reply.{Replies, Usable};
ghost use Rattle.remove.specs.inner.Stops.{SidesIn};

use answers::Answer;
use calls::refuse;
use graph::{node, rows};
use refusal::Refusal;

pub mod opened; // the opened state
pub mod stops; // what stops a debug build once the blossom is prepared

// Whether node n is a blossom of dual variable 0.
fn is_bare(b: &[i64], n: usize) -> bool
    requires { Formed b.now × (n < node_count (state_of b.now)) }
    ensures { result ≡ is_blossom (class_of (state_of b.now) n) && eqb (dual_of (state_of b.now) n) 0 }
{
    let v = rows::vertex_count(b);
    let x = node::class(b, n);
    (v <= x) & (x != v + node::REMOVED) & (node::dual(b, n) == 0)
}

// What refuses the opening of node n.
pub fn remove_refusal(b: &[i64], n: usize) -> Result<(), Refusal>
    requires { Formed b.now }
    ensures { refusal_number result ≡ remove_refusal (state_of b.now) n }
{
    refuse::node_refusal(b, n, false, false)?;
    if is_bare(b, n) {
        if refuse::store_short(b, n) {
            return Err(Refusal::StoreShort);
        }
        return Ok(());
    }
    Err(Refusal::NotOpenable)
}

// The prepared node n is opened, or stays as it is where a debug build stops.
fn open_prepared(b: &mut [i64], t: &[i64], n: usize) -> Result<Answer, Refusal>
    requires { Formed b.old × SidesIn (state_of b.old) × (n < node_count (state_of b.old)) }
    ensures { Replies b.old b.new (told result) (open_prepared (state_of b.old) n) }
{
    if stops::stops_opening(b, n) {
        return Err(Refusal::NotOpenable);
    }
    opened::open(b, t, n);
    Ok(Answer::Done)
}

// Node n, a blossom of dual variable 0, is opened: its members are outermost again and hold their sides.
pub fn remove_blossom(b: &mut [i64], t: &mut [i64], n: usize) -> Result<Answer, Refusal>
    requires { Usable b.old t.old }
    ensures { Replies b.old b.new (told result) (remove_blossom (state_of b.old) n) × (t.new ≡ t.old) }
{
    remove_refusal(b, n)?;
    prepare::prepare_dual_node_growth(b, t, n, 0);
    open_prepared(b, t, n)
}
