#![tactic(auto)]

// What a call answers, and an answer as numbers at the front of a lent list.

ghost use Rattle.std.specs.Prelude.{◌≡◌, not, ◌≤◌, length};
ghost use Rattle.std.specs.Int.Signed.{non_neg};
ghost use Rattle.answers.specs.Answer.{flag};
ghost use Rattle.answers.specs.declared.MaxUpdateLength.TheVariants.{NonZeroGrow};
ghost use Rattle.answers.specs.Outcome.{Refused, accepted_as, told_by};
ghost use Rattle.answers.specs.Numbers.{length_numbers, answer_numbers, Tells};

use graph::words;
use refusal::Numbered;

// How far a node may grow, or what stands in its way: the Rust's MaxUpdateLength. Nodes and vertices are plain numbers.
#[derive(Clone, Copy)]
pub enum MaxUpdateLength {
    NonZeroGrow(i64, bool), // the node may grow so far; whether its boundary is empty
    Unlimited(bool), // NonZeroGrow of Weight::MAX: no limit; whether the boundary is empty
    Conflicting(usize, usize, usize, usize), // peer, its grandson, node, grandson
    TouchingVirtual(usize, usize, usize), // node, grandson, the virtual vertex met
    BlossomNeedExpand(usize), // a blossom of dual variable 0
    VertexShrinkStop(usize), // a defect of dual variable 0
    VertexShrinkStopPeer(usize, usize, usize), // the same, with a Grow peer and its grandson
}

// What a call answers that is not refused. A later call whose answer is none of these has an enum of its own.
#[derive(Clone, Copy)]
pub enum Answer {
    Length(MaxUpdateLength),
    Done,
    Node(usize), // the number of the new node
    Prepared(usize), // how many passes
    Vertex(usize), // the representative vertex
}

// The numbers are written over the front of the list; how many they are.
pub fn front(list: &mut [usize], numbers: &[usize]) -> usize
    requires { length numbers.now ≤ length list.old }
    ensures { Tells numbers.now list.old list.new result }
{
    let count = numbers.len();
    words::copy_each(&mut list[..count], numbers);
    count
}

// 1 or 0.
pub fn flag(e: bool) -> usize
    ensures { (result ≡ flag e) × (result ≤ 1) }
{
    usize::from(e)
}

// 1 below 0, and 0 else.
fn sign(x: i64) -> usize
    ensures { result ≡ flag (not (non_neg x)) }
{
    if words::non_negative(x) { 0 } else { 1 }
}

// A node may grow so far.
fn free(list: &mut [usize], x: i64, e: bool) -> usize
    requires { 5 ≤ length list.old }
    ensures { Tells (length_numbers (NonZeroGrow x e)) list.old list.new result }
{
    front(list, &[0, sign(x), words::magnitude(x), flag(e)])
}

// The numbers of a length answer are written over the front of the list; how many they are.
pub fn tell_length(list: &mut [usize], m: MaxUpdateLength) -> usize
    requires { 5 ≤ length list.old }
    ensures { Tells (length_numbers m) list.old list.new result }
{
    match m {
        MaxUpdateLength::NonZeroGrow(x, e) => free(list, x, e),
        MaxUpdateLength::Unlimited(e) => front(list, &[1, flag(e)]),
        MaxUpdateLength::Conflicting(p, g, n, h) => front(list, &[2, p, g, n, h]),
        MaxUpdateLength::TouchingVirtual(n, g, v) => front(list, &[3, n, g, v]),
        MaxUpdateLength::BlossomNeedExpand(n) => front(list, &[4, n]),
        MaxUpdateLength::VertexShrinkStop(n) => front(list, &[5, n]),
        MaxUpdateLength::VertexShrinkStopPeer(n, p, g) => front(list, &[6, n, p, g]),
    }
}

// The numbers of an answer that is no refusal.
fn tell_accepted(list: &mut [usize], a: Answer) -> usize
    requires { 5 ≤ length list.old }
    ensures { Tells (answer_numbers (accepted_as a)) list.old list.new result }
{
    match a {
        Answer::Length(m) => tell_length(list, m),
        Answer::Done => front(list, &[7]),
        Answer::Node(n) => front(list, &[8, n]),
        Answer::Prepared(n) => front(list, &[9, n]),
        Answer::Vertex(v) => front(list, &[10, v]),
    }
}

// The numbers of a refusal.
pub fn tell_refusal<R: Numbered>(list: &mut [usize], refusal: R) -> usize
    requires { 5 ≤ length list.old }
    ensures { Tells (answer_numbers (Refused (R.number_of refusal))) list.old list.new result }
{
    front(list, &[11, refusal.to_number()])
}

// The numbers of what a call hands back.
pub fn tell<R: Numbered>(list: &mut [usize], a: Result<Answer, R>) -> usize
    requires { 5 ≤ length list.old }
    ensures { Tells (answer_numbers (told_by R.number_of a)) list.old list.new result }
{
    match a {
        Ok(answer) => tell_accepted(list, answer),
        Err(refusal) => tell_refusal(list, refusal),
    }
}
