// The soundness test of the numbers that are stored of each side.

ghost use Rattle.std.specs.Prelude.{◌≡◌, ◌<◌};
ghost use Rattle.graph.specs.Basic.{all_below};
ghost use Rattle.graph.specs.State.{side_count};
ghost use Rattle.graph.specs.Sound.{stored_defect, side_sound};
ghost use Rattle.graph.specs.Layout.{state_of};
ghost use Rattle.graph.specs.Form.{Laid};
ghost use Rattle.graph_tests.specs.inner.Rows.{SideRows};

use block_rows::{parts, row_words};
use graph::rows;

// Whether x is stored for a defect node.
fn stored_defect(b: &[i64], x: usize) -> bool
    requires { Laid b.now }
    ensures { result ≡ stored_defect (state_of b.now) x }
{
    let c = rows::node_count(b);
    if (1 <= x) & (x <= c) {
        let v = rows::vertex_count(b);
        rows::node_word(b, rows::CLASS, x - 1) < v
    } else {
        false
    }
}

// Whether the numbers of side s are in range, and its grandson is a defect node if it is held; the three lists are these rows.
fn side_sound(b: &[i64], growth: &[i64], holder: &[i64], grandson: &[i64], s: usize) -> bool
    requires { Laid b.now × (s < side_count (state_of b.now)) × SideRows b.now growth.now holder.now grandson.now }
    ensures { result ≡ side_sound (state_of b.now) s }
{
    let c = rows::node_count(b);
    let g = row_words::at_most(growth, s, 1100000000000);
    let x = row_words::at_most(grandson, s, c);
    if g & x {
        if row_words::holds(holder, s, 0) {
            true
        } else {
            let d = stored_defect(b, row_words::number(grandson, s));
            row_words::at_most(holder, s, c) & d
        }
    } else {
        false
    }
}

// Whether this is so of all sides.
fn sides_in(b: &[i64], growth: &[i64], holder: &[i64], grandson: &[i64]) -> bool
    requires { Laid b.now × SideRows b.now growth.now holder.now grandson.now }
    ensures { result ≡ all_below (side_sound (state_of b.now)) (side_count (state_of b.now)) }
{
    let n = rows::side_count(b);
    for s in 0..n {
        if !side_sound(b, growth, holder, grandson, s) {
            return false;
        }
    }
    true
}

// The same of a block.
pub fn sides_sound(b: &[i64]) -> bool
    requires { Laid b.now }
    ensures { result ≡ all_below (side_sound (state_of b.now)) (side_count (state_of b.now)) }
{
    let growth = parts::side_row(b, rows::GROWTH);
    let holder = parts::side_row(b, rows::HOLDER);
    let grandson = parts::side_row(b, rows::GRANDSON);
    sides_in(b, growth, holder, grandson)
}
