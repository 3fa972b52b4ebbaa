// Advance: a node grows by all of its own length answer.

ghost use Rattle.std.specs.Prelude.{◌≡◌, ◌≤◌, not, ◌==◌};
ghost use Rattle.graph.specs.State.{stay, grow_state_of};
ghost use Rattle.graph.specs.Layout.{state_of};
ghost use Rattle.graph.specs.Form.{Formed};
ghost use Rattle.answers.specs.Outcome.{told};
ghost use Rattle.calls.specs.inner.Reply.{Replies, Usable};
ghost use Rattle.calls.specs.Calls.{toward, advance};

use crate::{refuse, tested};
use answers::Answer;
use graph::dual_node::{DOWN, UP};
use graph::{node, rows};
use refusal::Refusal;

// The direction of a node in grow state x.
pub fn direction(x: usize) -> usize
    ensures { (result ≡ toward x) × (result ≤ 1) }
{
    if x == node::GROW { UP } else { DOWN }
}

// Node n does not grow: it is no outermost node, or Stay.
pub fn advance_none(b: &[i64], n: usize) -> Result<Answer, Refusal>
    requires { Formed b.now × (grow_state_of (state_of b.now) n ≡ 0) }
    ensures { Replies b.now b.now (told result) (advance (state_of b.now) n) }
{
    refuse::node_refusal(b, n, false, false)?;
    Ok(Answer::Done)
}

// Whether node n is there and not Stay.
pub fn moves(b: &[i64], n: usize) -> bool
    requires { Formed b.now }
    ensures { result ≡ not (grow_state_of (state_of b.now) n == stay) }
{
    if rows::node_count(b) <= n {
        false
    } else {
        node::grow_state(b, n) != node::STAY
    }
}

// Node n grows by its own length answer, in the direction of its grow state.
pub fn advance(b: &mut [i64], t: &mut [i64], n: usize) -> Result<Answer, Refusal>
    requires { Usable b.old t.old }
    ensures { Replies b.old b.new (told result) (advance (state_of b.old) n) × (t.new ≡ t.old) }
{
    tested::advance(b, t, n, false).answer
}
