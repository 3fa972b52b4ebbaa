// Marks on vertices: a list of numbers, above 0 at a vertex that has a mark.

ghost use Rattle.std.specs.Prelude.{◌≡◌, set};
ghost use Rattle.table_words.specs.Sides.{marked, mark_if};

// Whether vertex u has one.
pub fn marked(m: &[usize], u: usize) -> bool
    ensures { result ≡ marked m.now u }
{
    if u < m.len() { 0 < m[u] } else { false }
}

// Vertex u gets one; nothing is done where there is no such vertex.
fn mark(m: &mut [usize], u: usize)
    ensures { m.new ≡ set m.old u 1 }
{
    if u < m.len() {
        m[u] = 1;
    }
}

// Vertex u gets one where t says so.
pub fn mark_if(m: &mut [usize], u: usize, t: bool)
    ensures { m.new ≡ mark_if t m.old u }
{
    if t {
        mark(m, u);
    }
}
