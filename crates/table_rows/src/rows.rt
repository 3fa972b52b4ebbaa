// The row of one defect: its distances, its dual variable against the others and against virtual vertices, and its part of the table.

ghost use Rattle.std.specs.Prelude.{◌≡◌, length};
ghost use Prim.Native.Nat.{◌*◌, ◌≤◌, ◌<◌};
ghost use Rattle.graph.specs.Basic.{all_below};
ghost use Rattle.distance.specs.Table.{share};
ghost use Rattle.table_words.specs.Handed.{distance_in};
ghost use Rattle.table_rows.specs.Row.{defect_pair_at, virtual_pair_at, side_at, row_right, cover_marks, free_at};
ghost use Rattle.graph.specs.Word.{word_limit};

use table_distances::distances;
use table_words::table::Table;
use table_words::{marks, words};

// Whether the dual variables of defects i and j sum to at most their distance.
fn pair_at(defects: &[i64], duals: &[i64], row: &[i64], i: usize, j: usize) -> bool
    ensures { result ≡ defect_pair_at defects.now duals.now (distance_in row.now) i j }
{
    let sum = words::number(duals, i) + words::number(duals, j);
    (i == j) | (sum <= words::distance_in(row, words::number(defects, j)))
}

// Whether it is so with every other defect.
fn pairs(defects: &[i64], duals: &[i64], row: &[i64], i: usize) -> bool
    ensures { result
        ≡ all_below (defect_pair_at defects.now duals.now (distance_in row.now) i)
        (length defects.now) }
{
    (0..defects.len()).all(|j| pair_at(defects, duals, row, i, j))
}

// Whether y is at most the distance to the virtual vertex at place k.
fn virtual_at(virtuals: &[i64], row: &[i64], y: usize, k: usize) -> bool
    ensures { result ≡ virtual_pair_at virtuals.now (distance_in row.now) y k }
{
    y <= words::distance_in(row, words::number(virtuals, k))
}

// Whether it is so with every virtual vertex.
fn far(virtuals: &[i64], row: &[i64], y: usize) -> bool
    ensures { result ≡ all_below (virtual_pair_at virtuals.now (distance_in row.now) y) (length virtuals.now) }
{
    (0..virtuals.len()).all(|k| virtual_at(virtuals, row, y, k))
}

// What a defect of dual variable y gives a side.
fn share(y: usize, n: usize, f: usize, w: usize) -> usize
    requires { (n ≤ y) × (f ≤ 2000000000001) × (y < word_limit) × (w < word_limit) }
    ensures { result ≡ share y n f w }
{
    if f == n + w {
        (y - n).min(w)
    } else {
        if n == f + w { 0 } else { y - n }
    }
}

// Whether the growth of side s is the share of the defect, where it covers the vertex of the side.
fn side_at(edges: &[i64], growths: &[i64], row: &[i64], y: usize, s: usize) -> bool
    requires { (s < 8192) × (y < word_limit) }
    ensures { result ≡ side_at edges.now growths.now (distance_in row.now) y s }
{
    let n = words::distance_in(row, words::near(edges, s));
    if y <= n {
        return true;
    }
    let f = words::distance_in(row, words::across(edges, s));
    words::number(growths, s) == share(y, n, f, words::weight(edges, s))
}

// Whether it is so for every side.
fn shares(e: usize, edges: &[i64], growths: &[i64], row: &[i64], y: usize) -> bool
    requires { (e ≤ 4096) × (y < word_limit) }
    ensures { result ≡ all_below (side_at edges.now growths.now (distance_in row.now) y) (2 * e) }
{
    (0..2 * e).all(|s| side_at(edges, growths, row, y, s))
}

// Whether the row of defect i is right.
pub fn row_right(table: &Table, row: &[i64], i: usize) -> bool
    requires { table.now.e ≤ 4096 }
    ensures { result ≡ row_right table.now.v table.now.e table.now.edges.now table.now.virtuals.now table.now.defects.now table.now.duals.now
        table.now.growths.now (distance_in row.now) i }
{
    let y = words::number(table.duals, i);
    distances::certified(
        table.v,
        table.e,
        table.edges,
        words::number(table.defects, i),
        row,
    ) & (pairs(table.defects, table.duals, row, i)
        & (far(table.virtuals, row, y) & shares(table.e, table.edges, table.growths, row, y)))
}

// The vertices that the defect covers get marks.
pub fn cover(m: &mut [usize], v: usize, row: &[i64], y: usize)
    ensures { m.new ≡ cover_marks v (distance_in row.now) y m.old }
{
    for u in 0..v {
        let t = words::distance_in(row, u) < y;
        marks::mark_if(m, u, t);
    }
}

// Whether side s has no growth, where its vertex has no mark.
fn free_at(edges: &[i64], growths: &[i64], m: &[usize], s: usize) -> bool
    requires { s < 8192 }
    ensures { result ≡ free_at edges.now growths.now m.now s }
{
    marks::marked(m, words::near(edges, s)) | (words::number(growths, s) == 0)
}

// Whether it is so for every side.
pub fn free(e: usize, edges: &[i64], growths: &[i64], m: &[usize]) -> bool
    requires { e ≤ 4096 }
    ensures { result ≡ all_below (free_at edges.now growths.now m.now) (2 * e) }
{
    (0..2 * e).all(|s| free_at(edges, growths, m, s))
}
