// The edges of a patch, as words that open takes.

ghost use Rattle.std.specs.Prelude.{◌≡◌, [], ◌∷◌, ◌+◌, ◌*◌, ◌≤◌, ◌<◌, length};
ghost use Rattle.small_patches.specs.SmallPatch.{pair, edge_over, patch_at};
ghost use Rattle.small_patches.specs.Words.{EdgesPut, weight_of, edges_by, edges_of_zero, other_edges};

use graph::words;

// The weight of a pair that is not absent: first 2, then 4.
fn weight_of(digit: usize) -> usize
    ensures { (result ≡ weight_of digit) × (result ≤ 4) }
{
    if digit == 1 { 2 } else { 4 }
}

// An edge behind n others.
fn put_edge(edges: &mut [i64], n: usize, left: usize, right: usize, weight: usize) -> usize
    requires { (3 * n + 3 ≤ length edges.old) × (left < 4) × (right < 4) × (weight ≤ 4) }
    ensures { EdgesPut edges.old n edges.new result (edge_over (pair left right) weight ∷ []) }
{
    words::put(edges, 3 * n, left);
    words::put(edges, 3 * n + 1, right);
    words::put(edges, 3 * n + 2, weight);
    n + 1
}

// The pair by its digit, behind n edges: no edge where it is absent.
fn put_pair(edges: &mut [i64], n: usize, left: usize, right: usize, digit: usize) -> usize
    requires { (3 * n + 3 ≤ length edges.old) × (left < 4) × (right < 4) }
    ensures { EdgesPut edges.old n edges.new result (edges_by digit (pair left right)) × (result ≤ n + 1) }
{
    if digit == 0 {
        return n;
    }
    put_edge(edges, n, left, right, weight_of(digit))
}

// The pairs with vertex 0.
fn put_pairs_of_zero(edges: &mut [i64], k: usize) -> usize
    requires { 18 ≤ length edges.old }
    ensures { EdgesPut edges.old 0 edges.new result (edges_of_zero k) × (result ≤ 3) }
{
    let a = put_pair(edges, 0, 0, 1, k / 243 % 3);
    let b = put_pair(edges, a, 0, 2, k / 81 % 3);
    put_pair(edges, b, 0, 3, k / 27 % 3)
}

// The other pairs, behind n edges.
fn put_other_pairs(edges: &mut [i64], n: usize, k: usize) -> usize
    requires { (18 ≤ length edges.old) × (n ≤ 3) }
    ensures { EdgesPut edges.old n edges.new result (other_edges k) × (result ≤ n + 3) }
{
    let a = put_pair(edges, n, 1, 2, k / 9 % 3);
    let b = put_pair(edges, a, 1, 3, k / 3 % 3);
    put_pair(edges, b, 2, 3, k % 3)
}

// The edges of graph k, how many there are; none for a number above 728.
pub fn patch(k: usize, edges: &mut [i64; 18]) -> usize
    ensures { EdgesPut edges.old 0 edges.new result (patch_at k) × (result ≤ 6) }
{
    if 728 < k {
        return 0;
    }
    let n = put_pairs_of_zero(edges, k);
    put_other_pairs(edges, n, k)
}
