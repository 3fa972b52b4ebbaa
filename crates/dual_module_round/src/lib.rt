#![tactic(auto)]

// The calls on all clusters, on memory that a host lends. A trial is worked on a second block, which becomes the block's copy first; at its end the
// block is copied back to the second one where a node was refused, and the second to the block else.

ghost use Rattle.std.specs.Prelude.{◌≡◌, ◌&&◌, ◌*◌, ◌<◌, ◌≤◌, pos, eqb, length, get_or, set, if◌then◌else◌};
ghost use Rattle.graph.specs.Layout.{n_of, state_of, sized};
ghost use Rattle.pass.specs.Scratch.{zero_scratch};
ghost use Rattle.refusal.specs.Refusal.{refusal_number};
ghost use Rattle.answers.specs.Outcome.{told};
ghost use Rattle.calls.specs.Group.{group_told};
ghost use Rattle.dual_module_round.specs.Called.{trial_refusal, group_trial_refusal, round_refusal, trial_reply, trial_answer, OnTrial, RenewCalled, PrepareAllCalled, RoundCalled, GroupCalled};
ghost use Rattle.graph.specs.Word.{word_limit};

use answers::Answer;
use calls::group::GroupMaxUpdateLength;
use graph::{sizes, words};
use memory_tests::refuse;
use refusal::Refusal;

// ---- copies

// Every word of s, to d of the same length.
fn copy(d: &mut [i64], s: &[i64])
    requires { length d.old ≡ length s.now }
    ensures { d.new ≡ s.now }
{
    graph::words::copy_each(d, s);
}

// The second block becomes the block, and the scratch all zero.
fn begin(b: &[i64], s: &mut [i64], t: &mut [i64])
    requires { length s.old ≡ length b.now }
    ensures { (s.new ≡ b.now) × (t.new ≡ zero_scratch (length t.old)) }
{
    copy(s, b);
    dual_module::clear_scratch(t);
}

// The block stays where the trial was refused, and becomes the second block else; both are the same then.
fn end(b: &mut [i64], s: &mut [i64], refused: bool)
    requires { length s.old ≡ length b.old }
    ensures { (b.new ≡ (if refused then b.old else s.old)) × (s.new ≡ b.new) }
{
    if refused {
        copy(s, b);
        return;
    }
    copy(b, s);
}

// ---- what refuses a trial before it

// Lengths and sizes, then soundness.
fn trial_refusal(b: &[i64], s: &[i64], t: &[i64]) -> Result<(), Refusal>
    ensures { refusal_number result ≡ trial_refusal b.now s.now t.now }
{
    if s.len() == b.len() {
        return refuse::refusal(b, t);
    }
    Err(Refusal::WrongLength)
}

// The same, and a length of 1 at least.
fn round_refusal(b: &[i64], s: &[i64], t: &[i64], length: i64) -> Result<(), Refusal>
    ensures { refusal_number result ≡ round_refusal b.now s.now t.now length }
{
    trial_refusal(b, s, t)?;
    if length < 1 {
        return Err(Refusal::RoundTooShort);
    }
    Ok(())
}

// Whether the sizes are in range and m words are 5 for each of N entries.
fn entries_fit(b: &[i64], m: usize) -> bool
    ensures { result ≡ sized b.now && eqb m (5 * n_of b.now) }
{
    if sizes::sized(b) {
        let n = words::word(b, 2);
        m == 5 * n
    } else {
        false
    }
}

// What refuses the group, with a list of m words.
fn group_refusal(b: &[i64], s: &[i64], t: &[i64], m: usize) -> Result<(), Refusal>
    ensures { refusal_number result ≡ group_trial_refusal b.now s.now t.now m }
{
    if entries_fit(b, m) {
        return trial_refusal(b, s, t);
    }
    Err(Refusal::WrongLength)
}

// ---- the calls

// The nodes in Stay leave the active list.
pub fn renew_active_list(b: &mut [i64]) -> Result<Answer, Refusal>
    ensures { RenewCalled b.old b.new (told result) }
{
    refuse::refusal_alone(b)?;
    active_list::renew(b);
    Ok(Answer::Done)
}

// What a trial answers.
fn trial_answer(tried: Result<(), Refusal>) -> Result<Answer, Refusal>
    ensures { told result ≡ trial_answer (refusal_number tried) }
{
    match tried {
        Ok(()) => Ok(Answer::Done),
        Err(refusal) => Err(refusal),
    }
}

// A trial of length l, 0 for a preparation, on memory that is not refused.
fn trial(b: &mut [i64], s: &mut [i64], t: &mut [i64], l: usize) -> Result<Answer, Refusal>
    requires { (trial_refusal b.old s.old t.old ≡ 0) × (l ≤ word_limit) }
    ensures { OnTrial 0 b.old s.old t.old b.new s.new t.new (told result)
        (trial_reply l (state_of b.old)) }
{
    begin(b, s, t);
    let tried = round_trial::trial::in_turn(s, t, l);
    end(b, s, tried.is_err());
    trial_answer(tried)
}

// Every active node is prepared, first those that shrink.
pub fn prepare_all(b: &mut [i64], s: &mut [i64], t: &mut [i64]) -> Result<Answer, Refusal>
    ensures { PrepareAllCalled b.old s.old t.old b.new s.new t.new (told result) }
{
    trial_refusal(b, s, t)?;
    trial(b, s, t, 0)
}

// A round: every active node moves by a length, first those that shrink.
pub fn grow(b: &mut [i64], s: &mut [i64], t: &mut [i64], length: i64) -> Result<Answer, Refusal>
    ensures { RoundCalled b.old s.old t.old length b.new s.new t.new (told result) }
{
    round_refusal(b, s, t, length)?;
    trial(b, s, t, words::magnitude(length))
}

// How far all active nodes may move, prepared first; what stands in the way of them is listed.
pub fn compute_maximum_update_length(
    b: &mut [i64],
    s: &mut [i64],
    t: &mut [i64],
    list: &mut [usize],
) -> Result<GroupMaxUpdateLength, Refusal>
    ensures { GroupCalled b.old s.old t.old list.old b.new s.new
        t.new list.new (group_told result) }
{
    group_refusal(b, s, t, list.len())?;
    begin(b, s, t);
    let group = round::group::compute_maximum_update_length(s, t, list);
    end(b, s, group.is_err());
    group
}
