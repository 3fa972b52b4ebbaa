// The call that four words are, by its kind. Kinds are those of records, and 14 to 16 for what is read.

ghost use Rattle.std.specs.Prelude.{◌≡◌, length};
ghost use Rattle.c_api_calls.specs.ListCall.{list_call_of};
ghost use Rattle.c_api_calls.specs.inner.Running.{Passed, CallDone};

use crate::each;
use crate::each::After;
use graph::words;

// The call of the words w is made.
pub fn make(
    b: &mut [i64],
    t: &mut [i64],
    w: &[i64],
    circles: &[i64],
    part: &mut [usize],
    zero: bool,
) -> After
    requires { Passed b.old t.old zero × (length w.now ≡ 4) × (length part.old ≡ 5) }
    ensures { CallDone b.old t.old (list_call_of circles.now w.now) b.new
        t.new part.old part.new result.kept result.zero }
{
    let k = words::word(w, 0);
    match k {
        4 => each::defect(b, t, w, part, zero),
        5 => each::blossom(b, t, w, circles, part, zero),
        6 => each::state(b, t, w, part, zero),
        7 => each::prepare(b, t, w, part, zero),
        8 => each::length(b, t, w, part, zero),
        9 => each::grow(b, t, w, part, zero),
        11 => each::advance(b, t, w, part, zero),
        13 => each::clear(b, t, part, zero),
        14 => each::vertex(b, t, w, part, zero),
        15 => each::node(b, t, w, part, zero),
        16 => each::gap(b, t, w, part, zero),
        _ => each::other(part, zero),
    }
}
