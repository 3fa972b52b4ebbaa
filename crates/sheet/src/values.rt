// The values of a sheet.

ghost use Rattle.std.specs.Prelude.{◌≡◌, max};
ghost use Rattle.graph.specs.Basic.{all};
ghost use Rattle.sheet.specs.Sheet.{values_from, largest, in_range, sheet_ok};

use graph::words;

// The greater number.
fn greater(x: usize, y: usize) -> usize
    ensures { result ≡ max x y }
{
    if x <= y { y } else { x }
}

// The largest value, 0 of none.
pub fn largest(sheet: &[i64]) -> usize
    ensures { result ≡ largest (values_from sheet.now) }
{
    sheet.iter().fold(0, |m, w| greater(m, words::to_nat(*w)))
}

// Whether every value is in range.
fn all_in_range(sheet: &[i64]) -> bool
    ensures { result ≡ all in_range (values_from sheet.now) }
{
    sheet.iter().all(|w| words::to_nat(*w) <= 999999999)
}

// Whether every value is in range and one of them positive.
pub fn sheet_ok(sheet: &[i64]) -> bool
    ensures { result ≡ sheet_ok (values_from sheet.now) }
{
    all_in_range(sheet) & (0 < largest(sheet))
}
