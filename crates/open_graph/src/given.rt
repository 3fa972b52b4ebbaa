// The words that the host gives with a graph: reading them, and the tests of all edges and of all virtual vertices.

ghost use Rattle.std.specs.Prelude.{◌≡◌, ◌<◌, ◌≤◌, ltb};
ghost use Rattle.graph.specs.Basic.{all};
ghost use Rattle.graph.specs.Open.{edge_ok};
ghost use Rattle.graph.specs.Opening.{given_at, edge_at, edges_in, edges_from, virtuals_from};
ghost use Rattle.graph.specs.Word.{word_limit};

use graph::words;

// The number at place i, the greatest where there is none.
pub fn given(words: &[i64], i: usize) -> usize
    ensures { (result ≡ given_at words.now i) × (result < word_limit) }
{
    if i < words.len() {
        words::word(words, i)
    } else {
        9223372036854775807
    }
}

// How many edges the words give.
pub fn edges_in(words: &[i64]) -> usize
    ensures { result ≡ edges_in words.now }
{
    let k = words.len();
    k / 3 + (k % 3 + 2) / 3
}

// Whether edge i has two ends that differ and a weight, all in range.
fn edge_ok(v: usize, edges: &[i64], i: usize) -> bool
    requires { i < 4096 }
    ensures { result ≡ edge_ok v (edge_at edges.now i) }
{
    let x = given(edges, 3 * i);
    let y = given(edges, 3 * i + 1);
    let w = given(edges, 3 * i + 2);
    (x < v) & (y < v) & (x != y) & (w <= 1000000)
}

// Whether every edge is so.
pub fn edges_ok(v: usize, e: usize, edges: &[i64]) -> bool
    requires { (e ≤ 4096) × (edges_in edges.now ≡ e) }
    ensures { result ≡ all (edge_ok v) (edges_from edges.now) }
{
    for i in 0..e {
        if !edge_ok(v, edges, i) {
            return false;
        }
    }
    true
}

// Whether every virtual vertex is a vertex.
pub fn virtuals_ok(v: usize, virtuals: &[i64]) -> bool
    ensures { result ≡ all (λ x. ltb x v) (virtuals_from virtuals.now) }
{
    virtuals.iter().all(|w| words::to_nat(*w) < v)
}
