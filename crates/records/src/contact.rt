// The line of a contact.

ghost use Rattle.std.specs.Prelude.{[], ◌∷◌, ◌+◌, ◌≤◌, length};
ghost use Rattle.calls.specs.Contacts.{Contact};
ghost use Rattle.records.specs.Lines.{end_text, contact_text, contact_line};
ghost use Rattle.records.specs.Write.{Written, LinesPut};

use crate::lines::Out;
use crate::{lines, text};

// A space and what stands at an end: a node, given as its number + 1, or -1 for 0.
fn end(t: &mut [u8], n: usize, p: usize) -> usize
    requires { n + 21 ≤ length t.old }
    ensures { Written t.old n t.new result (end_text p) × (result ≤ n + 21) }
{
    if p == 0 {
        text::word(t, n, b" -1")
    } else {
        text::numbers(t, n, &[p - 1])
    }
}

// The words of the line, at the start of t.
fn words(t: &mut [u8], e: usize, p: usize, q: usize) -> usize
    requires { 70 ≤ length t.old }
    ensures { Written t.old 0 t.new result (contact_text (record { edge = e; left = p; right = q })) × (result ≤ 70) }
{
    let a = text::word(t, 0, b"contact");
    let b = text::numbers(t, a, &[e]);
    let c = end(t, b, p);
    end(t, c, q)
}

// The line of record k about edge e goes behind the others; p and q stand at its ends.
pub fn tell(lines: &mut [u8], o: Out, k: usize, e: usize, p: usize, q: usize) -> Out
    requires { o.at ≤ length lines.old }
    ensures { LinesPut lines.old o.at o.full lines.new result.at result.full
        (contact_line k (record { edge = e; left = p; right = q }) ∷ []) }
{
    let mut w = [0u8; 70];
    let n = words(&mut w, e, p, q);
    lines::tell(lines, o, k, &w[0..n], &[])
}
