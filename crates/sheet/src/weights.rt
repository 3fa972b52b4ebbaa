// The weights of a sheet's values: one, how many vanish, all of them written into the edges.

ghost use Rattle.std.specs.Prelude.{◌≡◌, true, ◌*◌, ◌<◌, ◌≤◌, length};
ghost use Rattle.sheet.specs.Weight.{half_weight, scaled};
ghost use Rattle.sheet.specs.Sheet.{values_from, sheet_ok, vanishes, vanished, weighed};

use crate::values;
use graph::words;

// The whole number nearest to 500,000 t / m, halves upward.
fn half_weight(m: usize, t: usize) -> usize
    requires { (0 < m) × (m ≤ 999999999) × (t ≤ m) }
    ensures { (result ≡ half_weight m t) × (result ≤ 500000) }
{
    (1000000 * t + m) / (2 * m)
}

// The weight: twice that number.
fn scaled(m: usize, t: usize) -> usize
    requires { (0 < m) × (m ≤ 999999999) × (t ≤ m) }
    ensures { (result ≡ scaled m t) × (result ≤ 1000000) }
{
    2 * half_weight(m, t)
}

// Whether the value is positive and becomes 0.
fn vanishes(m: usize, t: usize) -> bool
    requires { (0 < m) × (m ≤ 999999999) × (t ≤ m) }
    ensures { result ≡ vanishes m t }
{
    (0 < t) & (scaled(m, t) == 0)
}

// How many values do.
pub fn vanished(sheet: &[i64]) -> usize
    requires { sheet_ok (values_from sheet.now) ≡ true }
    ensures { result ≡ vanished (values_from sheet.now) }
{
    let m = values::largest(sheet);
    let mut k = 0;
    for w in sheet {
        if vanishes(m, words::to_nat(*w)) {
            k += 1;
        }
    }
    k
}

// The third word of each edge becomes its weight.
pub fn weigh(edges: &mut [i64], sheet: &[i64])
    requires { (sheet_ok (values_from sheet.now) ≡ true) × (length edges.old ≡ 3 * length sheet.now) }
    ensures { edges.new ≡ weighed (values_from sheet.now) edges.old }
{
    let m = values::largest(sheet);
    for (i, t) in sheet.iter().enumerate() {
        let w = scaled(m, words::to_nat(*t));
        words::put(edges, 3 * i + 2, w);
    }
}
