// Lines behind one another in lent bytes, as far as they fit.

ghost use Rattle.std.specs.Prelude.{[], ◌∷◌, ◌++◌, ◌+◌, ◌≤◌, length};
ghost use Rattle.records.specs.Text.{decimal, spaced};
ghost use Rattle.records.specs.Lines.{line};
ghost use Rattle.records.specs.Write.{Written, LinesPut};

use crate::text;

// How many bytes are written, and whether a line did not fit.
#[derive(Clone, Copy)]
pub struct Out {
    pub at: usize,
    pub full: bool,
}

// The line goes behind the others, if it fits and all before it did.
fn put_line(lines: &mut [u8], o: Out, l: &[u8]) -> Out
    requires { (o.at ≤ length lines.old) × (length l.now ≤ 128) }
    ensures { LinesPut lines.old o.at o.full lines.new result.at result.full (l.now ∷ []) }
{
    if o.full {
        return o;
    }
    if lines.len() - o.at < l.len() {
        return Out { full: true, ..o };
    }
    let n = text::word(lines, o.at, l);
    Out { at: n, full: false }
}

// The number of a record and a word, from place n on.
fn start_line(t: &mut [u8], n: usize, k: usize, w: &[u8]) -> usize
    requires { n + 21 + length w.now ≤ length t.old }
    ensures { Written t.old n t.new result (decimal k ++ (32 ∷ w.now))
        × (result ≤ n + 21 + length w.now) }
{
    let a = text::decimal(t, n, k);
    let b = text::byte(t, a, 32);
    text::word(t, b, w)
}

// The line of record k with a word and numbers, from place n on.
fn write_line(t: &mut [u8], n: usize, k: usize, w: &[u8], ns: &[usize]) -> usize
    requires { (n + 128 ≤ length t.old) × (length w.now + length (spaced ns.now) ≤ 106) }
    ensures { Written t.old n t.new result (line k (w.now ++ spaced ns.now)) × (result ≤ n + 128) }
{
    let a = start_line(t, n, k, w);
    let b = text::numbers(t, a, ns);
    text::byte(t, b, 10)
}

// The line of record k with a word and numbers goes behind the others: in its place where any line fits.
pub fn tell(lines: &mut [u8], o: Out, k: usize, w: &[u8], ns: &[usize]) -> Out
    requires { (o.at ≤ length lines.old) × (length w.now + length (spaced ns.now) ≤ 106) }
    ensures { LinesPut lines.old o.at o.full lines.new result.at result.full
        (line k (w.now ++ spaced ns.now) ∷ []) }
{
    if !o.full & (128 <= lines.len() - o.at) {
        let e = write_line(lines, o.at, k, w, ns);
        return Out { at: e, full: false };
    }
    let mut t = [0u8; 128];
    let n = write_line(&mut t, 0, k, w, ns);
    put_line(lines, o, &t[0..n])
}

// The line of record k with a word and a number.
pub fn tell_one(lines: &mut [u8], o: Out, k: usize, w: &[u8], x: usize) -> Out
    requires { (o.at ≤ length lines.old) × (length w.now ≤ 8) }
    ensures { LinesPut lines.old o.at o.full lines.new result.at result.full (line k (w.now ++ spaced (x ∷ [])) ∷ []) }
{
    tell(lines, o, k, w, &[x])
}

// The same with three numbers.
pub fn tell_three(lines: &mut [u8], o: Out, k: usize, w: &[u8], x: usize, y: usize, z: usize) -> Out
    requires { (o.at ≤ length lines.old) × (length w.now ≤ 8) }
    ensures { LinesPut lines.old o.at o.full lines.new result.at result.full
        (line k (w.now ++ spaced (x ∷ y ∷ z ∷ [])) ∷ []) }
{
    tell(lines, o, k, w, &[x, y, z])
}

// The same with four numbers.
pub fn tell_four(
    lines: &mut [u8],
    o: Out,
    k: usize,
    w: &[u8],
    x: usize,
    y: usize,
    z: usize,
    u: usize,
) -> Out
    requires { (o.at ≤ length lines.old) × (length w.now ≤ 8) }
    ensures { LinesPut lines.old o.at o.full lines.new result.at result.full
        (line k (w.now ++ spaced (x ∷ y ∷ z ∷ u ∷ [])) ∷ []) }
{
    tell(lines, o, k, w, &[x, y, z, u])
}
