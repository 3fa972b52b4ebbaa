// The length answer on the state as it is.

ghost use Rattle.std.specs.Prelude.{◌≡◌, true, map, ◌<◌, ltb};
ghost use Rattle.graph.specs.Basic.{all, fold};
ghost use Rattle.graph.specs.State.{side_count, node_count, dual_of, overgrown_of};
ghost use Rattle.graph.specs.Word.{to_nat};
ghost use Rattle.graph.specs.Layout.{state_of};
ghost use Rattle.graph.specs.Form.{Formed};
ghost use Rattle.graph.specs.inner.Form.{sides_ok};
ghost use Rattle.answers.specs.Outcome.{length_told};
ghost use Rattle.update_length.specs.Scan.{scan_step, scan_boundary, shrink_limit, scan};
ghost use Rattle.update_length.specs.inner.Length.{length_end, scan_of, within_in, Knows};
ghost use Rattle.graph.specs.inner.Readable.{Readable};

use crate::join::Scan;
use crate::lengths::ZERO;
use crate::{join, lengths, look, stop};
use answers::MaxUpdateLength;
use graph::dual_node::UP;
use graph::{lists, node, words};
use refusal::Refusal;

// The scan of a boundary, handed on as its stretch of the list store.
fn scan_sides(b: &[i64], boundary: &[i64], n: usize, d: usize, start: Scan) -> Scan
    requires { Formed b.now × Readable (state_of b.now) × (n < node_count (state_of b.now))
        × (all (λ s. ltb s (side_count (state_of b.now))) (map to_nat boundary.now) ≡ true)
        × (within_in start < length_end) }
    ensures { Knows result (fold (scan_step (state_of b.now) n d) (scan_of start) (map to_nat boundary.now)) }
{
    let mut r = start;
    for word in boundary {
        let s = words::to_nat(*word);
        let l = look::look_side(b, n, d, s);
        r = join::join(r, l);
        if join::is_over(r) {
            return r;
        }
    }
    r
}

// The scan of the boundary of node n in direction d, from what is known before.
fn scan_boundary(b: &[i64], n: usize, d: usize, start: Scan) -> Result<MaxUpdateLength, Refusal>
    requires { Formed b.now × Readable (state_of b.now) × (n < node_count (state_of b.now))
        × (sides_ok (state_of b.now) n ≡ true) × (within_in start < length_end) }
    ensures { length_told result ≡ scan_boundary (state_of b.now) n d (scan_of start) }
{
    let boundary = lists::boundary(b, n);
    let r = scan_sides(b, boundary, n, d, start);
    join::scan_answer(boundary.len() == 0, r)
}

// The smaller of the dual variable and the top overgrown amount, if any.
fn shrink_limit(b: &[i64], n: usize) -> usize
    requires { Formed b.now × Readable (state_of b.now) × (n < node_count (state_of b.now)) }
    ensures { (result ≡ shrink_limit (dual_of (state_of b.now) n) (overgrown_of (state_of b.now) n)) × (result < 4398046511104) }
{
    let y = node::dual(b, n);
    if lists::overgrown_len(b, n) == 0 {
        y
    } else {
        let a = lists::overgrown_amount(b, n, 0);
        y.min(a)
    }
}

// The length answer of node n in direction d.
pub fn scan(b: &[i64], n: usize, d: usize) -> Result<MaxUpdateLength, Refusal>
    requires { Formed b.now × Readable (state_of b.now) × (n < node_count (state_of b.now)) × (sides_ok (state_of b.now) n ≡ true) }
    ensures { length_told result ≡ scan (state_of b.now) n d }
{
    if d == UP {
        return scan_boundary(b, n, d, Scan::OpenEnded);
    }
    if node::dual(b, n) == 0 {
        return Ok(stop::stop_answer(b, n));
    }
    let y = shrink_limit(b, n);
    scan_boundary(b, n, d, Scan::Within(ZERO + y))
}
