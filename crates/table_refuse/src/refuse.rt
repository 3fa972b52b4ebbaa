// What refuses the call: sizes and lengths, then numbers out of range or a defect listed twice.

ghost use Rattle.std.specs.Prelude.{◌≡◌, true, map, ◌≤◌, ◌<◌, leb, ltb};
ghost use Rattle.graph.specs.Basic.{all, distinct};
ghost use Rattle.graph.specs.Word.{to_nat};
ghost use Rattle.refusal.specs.Refusal.{refusal_number};
ghost use Rattle.table_refuse.specs.Refuse.{head_in_range, sizes_right, lengths_right, graph_in_range, defects_in_range, distances_in_range, numbers_right, table_refusal};

use graph::{sizes, words as blockwords};
use open_graph::given;
use refusal::Refusal;
use table_words::table::Table;
use table_words::words;

// Whether V, E and the number of edges are in range.
pub fn sizes_right(v: usize, e: usize, edges: &[i64]) -> bool
    ensures { result ≡ sizes_right v e edges.now }
{
    sizes::sizes_ok(v, e, 1, 0) & (given::edges_in(edges) == e)
}

// Whether there are a dual variable for each defect, two growths for each edge, and v distances for each defect.
fn lengths_right(table: &Table, distances: &[i64]) -> bool
    requires { (1 ≤ table.now.v) × (table.now.e ≤ 4096) }
    ensures { result ≡ lengths_right table.now.v table.now.e table.now.defects.now table.now.duals.now table.now.growths.now distances.now }
{
    let count = table.defects.len();
    (table.duals.len() == count)
        & ((table.growths.len() == 2 * table.e)
            & ((distances.len() / table.v == count) & (distances.len() % table.v == 0)))
}

// Whether the graph is in range.
fn graph_in_range(table: &Table) -> bool
    requires { sizes_right table.now.v table.now.e table.now.edges.now ≡ true }
    ensures { result ≡ graph_in_range table.now.v table.now.edges.now table.now.virtuals.now }
{
    given::edges_ok(table.v, table.e, table.edges) & given::virtuals_ok(table.v, table.virtuals)
}

// Whether no defect is listed twice: each that was met is marked.
fn all_distinct(defects: &[i64]) -> bool
    requires { all (λ x. ltb x 1024) (map to_nat defects.now) ≡ true }
    ensures { result ≡ distinct (map to_nat defects.now) }
{
    let mut marks = [0usize; 1024];
    for x in defects {
        let a = blockwords::to_nat(*x);
        if marks[a] == 1 {
            return false;
        }
        marks[a] = 1;
    }
    true
}

// Whether every defect is a vertex, and none is listed twice.
fn defects_in_range(v: usize, defects: &[i64]) -> bool
    requires { v ≤ 1024 }
    ensures { result ≡ defects_in_range v defects.now }
{
    if given::virtuals_ok(v, defects) {
        all_distinct(defects)
    } else {
        false
    }
}

// Whether every number is at most the limit.
fn at_most(list: &[i64], limit: usize) -> bool
    ensures { result ≡ all (λ x. leb x limit) (map to_nat list.now) }
{
    list.iter().all(|x| blockwords::to_nat(*x) <= limit)
}

// Whether every word gives a distance.
pub fn distances_in_range(list: &[i64]) -> bool
    ensures { result ≡ distances_in_range list.now }
{
    list.iter().all(|x| words::distance(*x) <= 2000000000000)
}

// Whether all but the distances is in range.
pub fn head_in_range(table: &Table) -> bool
    requires { sizes_right table.now.v table.now.e table.now.edges.now ≡ true }
    ensures { result ≡ head_in_range table.now.v table.now.edges.now table.now.virtuals.now table.now.defects.now table.now.duals.now
        table.now.growths.now }
{
    graph_in_range(table)
        & (defects_in_range(table.v, table.defects)
            & (at_most(table.duals, 1000000000) & at_most(table.growths, 1100000000000)))
}

// Whether every number is in range.
fn numbers_right(table: &Table, distances: &[i64]) -> bool
    requires { sizes_right table.now.v table.now.e table.now.edges.now ≡ true }
    ensures { result ≡ numbers_right table.now.v table.now.edges.now table.now.virtuals.now table.now.defects.now table.now.duals.now
        table.now.growths.now distances.now }
{
    head_in_range(table) & distances_in_range(distances)
}

// What refuses the call.
pub fn refusal(table: &Table, distances: &[i64]) -> Result<(), Refusal>
    ensures { refusal_number result ≡ table_refusal table.now.v table.now.e table.now.edges.now table.now.virtuals.now table.now.defects.now
        table.now.duals.now table.now.growths.now distances.now }
{
    if !sizes_right(table.v, table.e, table.edges) {
        return Err(Refusal::OutOfRange);
    }
    if !lengths_right(table, distances) {
        return Err(Refusal::WrongLength);
    }
    if !numbers_right(table, distances) {
        return Err(Refusal::OutOfRange);
    }
    Ok(())
}
