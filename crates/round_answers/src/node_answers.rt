// What the active nodes answer: the first refusal, whether all are free, and the length that is left to all of them.

ghost use Rattle.std.specs.Prelude.{◌≡◌, true, false, ◌<◌, length, get_or};
ghost use Rattle.graph.specs.Basic.{all, fold, member};
ghost use Rattle.graph.specs.Layout.{state_of};
ghost use Rattle.update_length.specs.Scan.{lesser};
ghost use Rattle.refusal.specs.Refusal.{refusal_number};
ghost use Rattle.answers.specs.Outcome.{Length, length_told};
ghost use Rattle.calls.specs.Round.{answers_of, first_refusal, is_free, join_length, join_unlimited, join_free};
ghost use Rattle.calls.specs.Group.{Unlimited as group_unlimited, found_as};
ghost use Rattle.round_answers.specs.inner.Asked.{Askable, answer_of};

use answers::MaxUpdateLength;
use calls::advance;
use calls::group::GroupMaxUpdateLength;
use graph::{node, rows};
use refusal::Refusal;
use update_length::scan;

// The answer of an active node n.
pub fn answer_of(b: &[i64], n: usize) -> Result<MaxUpdateLength, Refusal>
    requires { Askable b.now × (member n (state_of b.now).active ≡ true) }
    ensures { length_told result ≡ answer_of (state_of b.now) n }
{
    let d = advance::direction(node::grow_state(b, n));
    scan::scan(b, n, d)
}

// The answer of entry i of the active list.
pub fn answer_at(b: &[i64], i: usize) -> Result<MaxUpdateLength, Refusal>
    requires { Askable b.now × (i < length (state_of b.now).active) }
    ensures { length_told result ≡ answer_of (state_of b.now) (get_or (state_of b.now).active i 0) }
{
    let n = rows::active_node(b, i);
    answer_of(b, n)
}

// The first refusal.
pub fn first_refusal(b: &[i64]) -> Result<(), Refusal>
    requires { Askable b.now }
    ensures { refusal_number result ≡ first_refusal (answers_of (state_of b.now) (state_of b.now).active) }
{
    let k = rows::active_count(b);
    for i in 0..k {
        answer_at(b, i)?;
    }
    Ok(())
}

// Whether a length answer leaves the node free.
fn is_free_length(m: MaxUpdateLength) -> bool
    ensures { result ≡ is_free (Length m) }
{
    match m {
        MaxUpdateLength::NonZeroGrow(_, _) => true,
        MaxUpdateLength::Unlimited(_) => true,
        MaxUpdateLength::Conflicting(_, _, _, _) => false,
        MaxUpdateLength::TouchingVirtual(_, _, _) => false,
        MaxUpdateLength::BlossomNeedExpand(_) => false,
        MaxUpdateLength::VertexShrinkStop(_) => false,
        MaxUpdateLength::VertexShrinkStopPeer(_, _, _) => false,
    }
}

// Whether an answer does.
fn is_free(a: Result<MaxUpdateLength, Refusal>) -> bool
    ensures { result ≡ is_free (length_told a) }
{
    match a {
        Ok(m) => is_free_length(m),
        Err(_) => false,
    }
}

// Whether all of them are free.
pub fn all_free(b: &[i64]) -> bool
    requires { Askable b.now }
    ensures { result ≡ all is_free (answers_of (state_of b.now) (state_of b.now).active) }
{
    let k = rows::active_count(b);
    for i in 0..k {
        if !is_free(answer_at(b, i)) {
            return false;
        }
    }
    true
}

// The lesser of two lengths.
fn lesser(x: i64, y: i64) -> i64
    ensures { result ≡ lesser x y }
{
    if x < y { x } else { y }
}

// A length k and whether a boundary is empty, after the others.
fn join_length(g: GroupMaxUpdateLength, k: i64, f: bool) -> GroupMaxUpdateLength
    ensures { found_as result ≡ join_length (found_as g) k f }
{
    match g {
        GroupMaxUpdateLength::NonZeroGrow(l, e) => GroupMaxUpdateLength::NonZeroGrow(
            lesser(l, k),
            e | f,
        ),
        GroupMaxUpdateLength::Unlimited(e) => GroupMaxUpdateLength::NonZeroGrow(k, e | f),
        GroupMaxUpdateLength::Conflicts(c, s) => GroupMaxUpdateLength::Conflicts(c, s),
    }
}

// No limit, and whether a boundary is empty, after the others.
fn join_unlimited(g: GroupMaxUpdateLength, f: bool) -> GroupMaxUpdateLength
    ensures { found_as result ≡ join_unlimited (found_as g) f }
{
    match g {
        GroupMaxUpdateLength::NonZeroGrow(l, e) => GroupMaxUpdateLength::NonZeroGrow(l, e | f),
        GroupMaxUpdateLength::Unlimited(e) => GroupMaxUpdateLength::Unlimited(e | f),
        GroupMaxUpdateLength::Conflicts(c, s) => GroupMaxUpdateLength::Conflicts(c, s),
    }
}

// A free length answer after the others.
fn join_free_length(g: GroupMaxUpdateLength, m: MaxUpdateLength) -> GroupMaxUpdateLength
    ensures { found_as result ≡ join_free (found_as g) (Length m) }
{
    match m {
        MaxUpdateLength::NonZeroGrow(k, f) => join_length(g, k, f),
        MaxUpdateLength::Unlimited(f) => join_unlimited(g, f),
        MaxUpdateLength::Conflicting(_, _, _, _) => g,
        MaxUpdateLength::TouchingVirtual(_, _, _) => g,
        MaxUpdateLength::BlossomNeedExpand(_) => g,
        MaxUpdateLength::VertexShrinkStop(_) => g,
        MaxUpdateLength::VertexShrinkStopPeer(_, _, _) => g,
    }
}

// A free answer after the others.
fn join_free(g: GroupMaxUpdateLength, a: Result<MaxUpdateLength, Refusal>) -> GroupMaxUpdateLength
    ensures { found_as result ≡ join_free (found_as g) (length_told a) }
{
    match a {
        Ok(m) => join_free_length(g, m),
        Err(_) => g,
    }
}

// What is left to all of them, where all are free.
pub fn free_group(b: &[i64]) -> GroupMaxUpdateLength
    requires { Askable b.now }
    ensures { found_as result ≡ fold join_free (group_unlimited false) (answers_of (state_of b.now) (state_of b.now).active) }
{
    let k = rows::active_count(b);
    let mut g = GroupMaxUpdateLength::Unlimited(false);
    for i in 0..k {
        g = join_free(g, answer_at(b, i));
    }
    g
}
