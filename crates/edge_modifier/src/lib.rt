#![tactic(auto)]

// A change of weights for one shot, on a sound block: what refuses it, and the weights that the edges take.

ghost use Rattle.std.specs.Prelude.{◌≡◌, true, ◌<◌, length};
ghost use Rattle.graph.specs.Basic.{all, fold};
ghost use Rattle.graph.specs.Layout.{state_of};
ghost use Rattle.graph.specs.Form.{Formed};
ghost use Rattle.refusal.specs.Refusal.{refusal_number};
ghost use Rattle.answers.specs.Outcome.{told};
ghost use Rattle.graph.specs.inner.Form.{Becomes};
ghost use Rattle.calls.specs.Erasures.{pairs_from, names_edge, weight_in_range, modifier_refusal, reweigh, load_edge_modifier};
ghost use Rattle.calls.specs.inner.Reply.{Replies};
ghost use Rattle.edge_modifier.specs.inner.Refusals.{refusal_of_mark, refusal_of_weights};

use answers::Answer;
use graph::{edge, rows};
use open_graph::given;
use refusal::Refusal;

// ---- what refuses it

// Whether every pair names an edge.
fn edges_named(b: &[i64], pairs: &[i64]) -> bool
    requires { Formed b.now }
    ensures { result ≡ all (names_edge (state_of b.now)) (pairs_from pairs.now) }
{
    let m = rows::edge_count(b);
    let k = pairs.len() / 2;
    for i in 0..k {
        if m <= given::given(pairs, 2 * i) {
            return false;
        }
    }
    true
}

// Whether every weight is in range.
fn weights_in_range(pairs: &[i64]) -> bool
    ensures { result ≡ all weight_in_range (pairs_from pairs.now) }
{
    let k = pairs.len() / 2;
    for i in 0..k {
        if given::given(pairs, 2 * i + 1) > 1000000 {
            return false;
        }
    }
    true
}

// The refusal for a node, or for an earlier change that stands.
fn mark_refusal(b: &[i64]) -> Result<(), Refusal>
    requires { Formed b.now }
    ensures { refusal_number result ≡ refusal_of_mark (state_of b.now) }
{
    let n = rows::node_count(b);
    let x = rows::reweighted(b);
    if (n == 0) & (x == 0) {
        Ok(())
    } else {
        Err(Refusal::WeightsStand)
    }
}

// The refusal of the weights, and behind it.
fn weights_refusal(b: &[i64], pairs: &[i64]) -> Result<(), Refusal>
    requires { Formed b.now }
    ensures { refusal_number result ≡ refusal_of_weights (state_of b.now) (pairs_from pairs.now) }
{
    if !weights_in_range(pairs) {
        return Err(Refusal::OutOfRange);
    }
    mark_refusal(b)
}

// What refuses the change.
pub fn modifier_refusal(b: &[i64], pairs: &[i64]) -> Result<(), Refusal>
    requires { Formed b.now }
    ensures { refusal_number result ≡ modifier_refusal (state_of b.now) (pairs_from pairs.now) }
{
    if !edges_named(b, pairs) {
        return Err(Refusal::NoSuch);
    }
    weights_refusal(b, pairs)
}

// ---- the change

// Each edge takes its weight, pair by pair.
fn set_weights(b: &mut [i64], pairs: &[i64])
    requires { Formed b.old × (all (names_edge (state_of b.old)) (pairs_from pairs.now) ≡ true) × (all weight_in_range (pairs_from pairs.now) ≡ true) }
    ensures { Becomes b.old b.new (fold reweigh (state_of b.old) (pairs_from pairs.now)) }
{
    let k = pairs.len() / 2;
    for i in 0..k {
        edge::set_weight(
            b,
            given::given(pairs, 2 * i),
            given::given(pairs, 2 * i + 1),
        );
    }
}

// The edges take their weights, and the mark says that a change stands; an empty list leaves all as it was.
pub fn load_edge_modifier(b: &mut [i64], pairs: &[i64]) -> Result<Answer, Refusal>
    requires { Formed b.old × (modifier_refusal (state_of b.old) (pairs_from pairs.now) ≡ 0) }
    ensures { Replies b.old b.new (told result) (load_edge_modifier (state_of b.old) (pairs_from pairs.now))
        × (length pairs.now < 2 → b.new ≡ b.old) }
{
    if pairs.len() < 2 {
        return Ok(Answer::Done);
    }
    set_weights(b, pairs);
    edge::set_reweighted(b, 1);
    Ok(Answer::Done)
}
