// The call.

ghost use Rattle.std.specs.Prelude.{◌≡◌, ◌*◌, ◌≤◌, ◌<◌, length};
ghost use Rattle.graph.specs.Basic.{all_below};
ghost use Rattle.table_words.specs.Handed.{distance_in, row_of};
ghost use Rattle.table_check.specs.Outcome.{verdict_told};
ghost use Rattle.table_check.specs.Verdict.{table_verdict};
ghost use Rattle.table_check.specs.Tests.{positive_in, rows_right, tested};

use crate::reach;
use refusal::Refusal;
use table_refuse::refuse;
use table_rows::rows;
use table_words::table::Table;
use table_words::words;

// Whether no edge has weight 0.
pub fn positive(e: usize, edges: &[i64]) -> bool
    requires { e ≤ 4096 }
    ensures { result ≡ all_below (positive_in edges.now) (2 * e) }
{
    (0..2 * e).all(|s| 0 < words::weight(edges, s))
}

// Whether every row is right, and no side has a growth that no defect covers.
fn rows_right(table: &Table, distances: &[i64]) -> bool
    requires { (table.now.v ≤ 1024) × (table.now.e ≤ 4096) × (length table.now.defects.now ≤ 1024)
        × (length distances.now ≡ length table.now.defects.now * table.now.v) }
    ensures { result ≡ rows_right table.now.v table.now.e table.now.edges.now table.now.virtuals.now table.now.defects.now table.now.duals.now
        table.now.growths.now (λ i. distance_in (row_of table.now.v distances.now i)) }
{
    let mut m = [0usize; 1024];
    for i in 0..table.defects.len() {
        let row = &distances[i * table.v..i * table.v + table.v];
        if !rows::row_right(table, row, i) {
            return false;
        }
        rows::cover(&mut m, table.v, row, words::number(table.duals, i));
    }
    rows::free(table.e, table.edges, table.growths, &m)
}

// Whether all is right, where nothing refuses the call.
fn tested(table: &Table, distances: &[i64]) -> bool
    requires { (table.now.v ≤ 1024) × (table.now.e ≤ 4096) × (length table.now.defects.now ≤ 1024)
        × (length distances.now ≡ length table.now.defects.now * table.now.v) }
    ensures { result ≡ tested table.now.v table.now.e table.now.edges.now table.now.virtuals.now table.now.defects.now table.now.duals.now
        table.now.growths.now (λ i. distance_in (row_of table.now.v distances.now i)) }
{
    if positive(table.e, table.edges)
        & reach::in_reach(table.v, table.e, table.edges, table.virtuals)
    {
        rows_right(table, distances)
    } else {
        false
    }
}

// Whether the table is right, or what refuses the call. Everything lent is only read.
pub fn check_table(
    v: usize,
    e: usize,
    edges: &[i64],
    virtuals: &[i64],
    defects: &[i64],
    duals: &[i64],
    growths: &[i64],
    distances: &[i64],
) -> Result<bool, Refusal>
    ensures { verdict_told result ≡ table_verdict v e edges.now virtuals.now defects.now duals.now
        growths.now distances.now }
{
    let table = Table {
        v,
        e,
        edges,
        virtuals,
        defects,
        duals,
        growths,
    };
    refuse::refusal(&table, distances)?;
    Ok(tested(&table, distances))
}
