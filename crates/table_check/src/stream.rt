// The same row by row: what is known before the first row, after each row, and the verdict in the end.

ghost use Rattle.std.specs.Prelude.{◌≡◌, true, ◌≤◌};
ghost use Rattle.table_refuse.specs.Refuse.{sizes_right};
ghost use Rattle.table_check.specs.Outcome.{verdict_told};
ghost use Rattle.table_check.specs.Streamed.{begun, advanced, ended};

use crate::{check, reach};
use refusal::Refusal;
use table_refuse::refuse;
use table_rows::rows;
use table_words::table::Table;
use table_words::words;

// What is known after some rows; the vertices that a defect covers are marked in a list.
#[derive(Clone, Copy)]
pub struct Known {
    pub in_range: bool, // every number so far is
    pub passed: bool, // every test so far did
}

// Before the first row.
pub fn begin(table: &Table) -> Known
    requires { sizes_right table.now.v table.now.e table.now.edges.now ≡ true }
    ensures { (result.in_range ≡ (begun table.now.v table.now.e table.now.edges.now table.now.virtuals.now table.now.defects.now table.now.duals.now
        table.now.growths.now).in_range)
        × (result.passed ≡ (begun table.now.v table.now.e table.now.edges.now table.now.virtuals.now table.now.defects.now table.now.duals.now
        table.now.growths.now).passed) }
{
    Known {
        in_range: refuse::head_in_range(table),
        passed: check::positive(table.e, table.edges)
            & reach::in_reach(table.v, table.e, table.edges, table.virtuals),
    }
}

// After the row of defect i too.
pub fn next(k: Known, m: &mut [usize], table: &Table, row: &[i64], i: usize) -> Known
    requires { table.now.e ≤ 4096 }
    ensures { record { in_range = result.in_range; passed = result.passed; marks = m.new }
        ≡ advanced table.now.v table.now.e table.now.edges.now table.now.virtuals.now table.now.defects.now table.now.duals.now table.now.growths.now
        (record { in_range = k.in_range; passed = k.passed; marks = m.old }) row.now i }
{
    rows::cover(m, table.v, row, words::number(table.duals, i));
    Known {
        in_range: k.in_range & refuse::distances_in_range(row),
        passed: k.passed & rows::row_right(table, row, i),
    }
}

// The verdict in the end.
pub fn end(k: Known, m: &[usize], e: usize, edges: &[i64], growths: &[i64]) -> Result<bool, Refusal>
    requires { e ≤ 4096 }
    ensures { verdict_told result ≡ ended e edges.now growths.now (record { in_range = k.in_range; passed = k.passed; marks = m.now }) }
{
    if !k.in_range {
        return Err(Refusal::OutOfRange);
    }
    Ok(k.passed & rows::free(e, edges, growths, m))
}
