// Whether the distances of one defect are the shortest, by a certificate: 0 at the defect, no step too long, and a predecessor for each
// other vertex in reach.

ghost use Rattle.std.specs.Prelude.{◌≡◌, ◌*◌, ◌≤◌, ◌<◌};
ghost use Rattle.graph.specs.Basic.{all_below};
ghost use Rattle.table_words.specs.Handed.{distance_in};
ghost use Rattle.table_words.specs.Sides.{near_in, marks_by};
ghost use Rattle.table_distances.specs.Certificate.{relaxed_at, precedes_at, settled_at, certified};

use table_words::{marks, words};

// Whether the distance rises along side s by at most its weight.
fn relaxed_at(edges: &[i64], row: &[i64], s: usize) -> bool
    requires { s < 8192 }
    ensures { result ≡ relaxed_at edges.now (distance_in row.now) s }
{
    let n = words::distance_in(row, words::near(edges, s));
    let f = words::distance_in(row, words::across(edges, s));
    f <= n + words::weight(edges, s)
}

// Whether it does so along every side.
fn relaxed(e: usize, edges: &[i64], row: &[i64]) -> bool
    requires { e ≤ 4096 }
    ensures { result ≡ all_below (relaxed_at edges.now (distance_in row.now)) (2 * e) }
{
    (0..2 * e).all(|s| relaxed_at(edges, row, s))
}

// Whether the vertex across precedes that of side s.
fn precedes_at(edges: &[i64], row: &[i64], s: usize) -> bool
    requires { s < 8192 }
    ensures { result ≡ precedes_at edges.now (distance_in row.now) s }
{
    let n = words::distance_in(row, words::near(edges, s));
    let f = words::distance_in(row, words::across(edges, s));
    n == f + words::weight(edges, s)
}

// The vertices that have a predecessor get marks.
fn mark_preceded(m: &mut [usize], e: usize, edges: &[i64], row: &[i64])
    requires { e ≤ 4096 }
    ensures { m.new ≡ marks_by (precedes_at edges.now (distance_in row.now)) (near_in edges.now)
        m.old (2 * e) }
{
    for s in 0..2 * e {
        let t = precedes_at(edges, row, s);
        marks::mark_if(m, words::near(edges, s), t);
    }
}

// Whether vertex u is a, or out of reach, or has a predecessor.
fn settled_at(m: &[usize], row: &[i64], a: usize, u: usize) -> bool
    ensures { result ≡ settled_at m.now (distance_in row.now) a u }
{
    (u == a) | ((2000000000000 <= words::distance_in(row, u)) | marks::marked(m, u))
}

// Whether every vertex is so.
fn settled(m: &[usize], v: usize, row: &[i64], a: usize) -> bool
    ensures { result ≡ all_below (settled_at m.now (distance_in row.now) a) v }
{
    (0..v).all(|u| settled_at(m, row, a, u))
}

// Whether the row has the certificate for the defect at vertex a.
pub fn certified(v: usize, e: usize, edges: &[i64], a: usize, row: &[i64]) -> bool
    requires { e ≤ 4096 }
    ensures { result ≡ certified v e edges.now a (distance_in row.now) }
{
    let mut m = [0usize; 1024];
    mark_preceded(&mut m, e, edges, row);
    (words::distance_in(row, a) == 0) & (relaxed(e, edges, row) & settled(&m, v, row, a))
}
