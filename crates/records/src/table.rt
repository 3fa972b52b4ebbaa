// The lines of a table of growths and of a list of contacts.

ghost use Rattle.std.specs.Prelude.{◌≡◌, [], ◌∷◌, ◌+◌, ◌*◌, ◌<◌, ◌≤◌, length, true};
ghost use Rattle.graph.specs.Form.{Formed};
ghost use Rattle.graph.specs.Layout.{state_of};
ghost use Rattle.graph.specs.State.{edge_count};
ghost use Rattle.graph.specs.Sound.{sound};
ghost use Rattle.calls.specs.Calls.{growths, touching, growth_table, contacts};
ghost use Rattle.records.specs.Lines.{lines_for};
ghost use Rattle.records.specs.inner.Table.{edge_line, lines_at};
ghost use Rattle.records.specs.Write.{LinesPut};

use crate::lines::Out;
use crate::{contact, lines};
use graph::{rows, side};

// The line of edge e goes behind the others.
fn edge_line(lines: &mut [u8], o: Out, k: usize, b: &[i64], e: usize) -> Out
    requires { (o.at ≤ length lines.old) × Formed b.now × (e < edge_count (state_of b.now)) }
    ensures { LinesPut lines.old o.at o.full lines.new result.at result.full (edge_line k (state_of b.now) e ∷ []) }
{
    let x = side::growth(b, 2 * e);
    let y = side::growth(b, 2 * e + 1);
    lines::tell_three(lines, o, k, b"edge", e, x, y)
}

// The growths of every edge, a line each.
pub fn table(lines: &mut [u8], o: Out, k: usize, b: &[i64]) -> Out
    requires { (o.at ≤ length lines.old) × Formed b.now }
    ensures { LinesPut lines.old o.at o.full lines.new result.at result.full
        (lines_for k (growths (growth_table (state_of b.now)))) }
{
    let mut out = o;
    for e in 0..rows::edge_count(b) {
        out = edge_line(lines, out, k, b, e);
    }
    out
}

// A line for edge e if it is a contact.
fn contact_line(lines: &mut [u8], o: Out, k: usize, b: &[i64], e: usize) -> Out
    requires { (o.at ≤ length lines.old) × Formed b.now × (sound (state_of b.now) ≡ true) × (e < edge_count (state_of b.now)) }
    ensures { LinesPut lines.old o.at o.full lines.new result.at result.full (lines_at k (state_of b.now) e) }
{
    if contacts::is_contact(b, e) {
        let p = contacts::side_node(b, 2 * e);
        let q = contacts::side_node(b, 2 * e + 1);
        contact::tell(lines, o, k, e, p, q)
    } else {
        o
    }
}

// Each contact, a line each.
pub fn contacts(lines: &mut [u8], o: Out, k: usize, b: &[i64]) -> Out
    requires { (o.at ≤ length lines.old) × Formed b.now × (sound (state_of b.now) ≡ true) }
    ensures { LinesPut lines.old o.at o.full lines.new result.at result.full
        (lines_for k (touching (contacts (state_of b.now)))) }
{
    let mut out = o;
    for e in 0..rows::edge_count(b) {
        out = contact_line(lines, out, k, b, e);
    }
    out
}
