// The line of an answer.

ghost use Rattle.std.specs.Prelude.{[], ◌∷◌, ◌≤◌, length};
ghost use Rattle.answers.specs.declared.MaxUpdateLength.TheVariants.{NonZeroGrow};
ghost use Rattle.answers.specs.Outcome.{accepted_as, told_by};
ghost use Rattle.records.specs.Lines.{line, words_of_length, words_of};
ghost use Rattle.records.specs.Write.{LinesPut};

use crate::lines::Out;
use crate::{lines, signed_text, text};
use answers::{Answer, MaxUpdateLength};
use refusal::Numbered;

// The line of an answer that a node may grow by x.
fn free(lines: &mut [u8], o: Out, k: usize, x: i64, e: bool) -> Out
    requires { o.at ≤ length lines.old }
    ensures { LinesPut lines.old o.at o.full lines.new result.at result.full (line k (words_of_length (NonZeroGrow x e)) ∷ []) }
{
    let mut w = [0u8; 32];
    let m = text::word(&mut w, 0, b"free ");
    let n = signed_text::signed(&mut w, m, x);
    let ns = [answers::flag(e)];
    lines::tell(lines, o, k, &w[0..n], &ns)
}

// The line of a length answer to record k goes behind the others.
fn length(lines: &mut [u8], o: Out, k: usize, m: MaxUpdateLength) -> Out
    requires { o.at ≤ length lines.old }
    ensures { LinesPut lines.old o.at o.full lines.new result.at result.full (line k (words_of_length m) ∷ []) }
{
    match m {
        MaxUpdateLength::NonZeroGrow(x, e) => free(lines, o, k, x, e),
        MaxUpdateLength::Unlimited(e) => lines::tell_one(lines, o, k, b"free -1", answers::flag(e)),
        MaxUpdateLength::Conflicting(p, g, n, h) => lines::tell_four(
            lines,
            o,
            k,
            b"conflict",
            p,
            g,
            n,
            h,
        ),
        MaxUpdateLength::TouchingVirtual(n, g, v) => lines::tell_four(
            lines, o, k, b"virtual", n, g, v, 0,
        ),
        MaxUpdateLength::BlossomNeedExpand(n) => lines::tell_one(lines, o, k, b"expand", n),
        MaxUpdateLength::VertexShrinkStop(n) => lines::tell_one(lines, o, k, b"stop", n),
        MaxUpdateLength::VertexShrinkStopPeer(n, p, g) => lines::tell_three(
            lines, o, k, b"stop", n, p, g,
        ),
    }
}

// The line of an answer that is no refusal.
fn accepted(lines: &mut [u8], o: Out, k: usize, a: Answer) -> Out
    requires { o.at ≤ length lines.old }
    ensures { LinesPut lines.old o.at o.full lines.new result.at result.full (line k (words_of (accepted_as a)) ∷ []) }
{
    match a {
        Answer::Length(m) => length(lines, o, k, m),
        Answer::Done => lines::tell(lines, o, k, b"done", &[]),
        Answer::Node(n) => lines::tell_one(lines, o, k, b"node", n),
        Answer::Prepared(n) => lines::tell_one(lines, o, k, b"prepared", n),
        Answer::Vertex(v) => lines::tell_one(lines, o, k, b"vertex", v),
    }
}

// The line of an answer to record k goes behind the others.
pub fn answer<R: Numbered>(lines: &mut [u8], o: Out, k: usize, a: Result<Answer, R>) -> Out
    requires { o.at ≤ length lines.old }
    ensures { LinesPut lines.old o.at o.full lines.new result.at result.full
        (line k (words_of (told_by R.number_of a)) ∷ []) }
{
    match a {
        Ok(answer) => accepted(lines, o, k, answer),
        Err(refusal) => lines::tell_one(lines, o, k, b"refused", refusal.to_number()),
    }
}
