// The entries of amount 0 at the top of an overgrown stack.

ghost use Rattle.std.specs.Prelude.{◌≡◌, ◌<◌, length};
ghost use Rattle.graph.specs.Basic.{fold};
ghost use Rattle.graph.specs.State.{node_count, overgrown_of};
ghost use Rattle.graph.specs.Layout.{state_of};
ghost use Rattle.graph.specs.Form.{Formed};
ghost use Rattle.pass.specs.Shrink.{empty_tops, drop_step};
ghost use Rattle.pass.specs.inner.Ready.{Shrinkable};
ghost use Rattle.shrink_pass.specs.inner.Shrinking.{ShrinkWorking, ShrinkWorked};

use crate::keep::ShrinkProgress;
use crate::release;
use graph::lists;

// How many there are for node n.
pub fn empty_tops(b: &[i64], n: usize) -> usize
    requires { Formed b.now × (n < node_count (state_of b.now)) }
    ensures { result ≡ length (empty_tops (overgrown_of (state_of b.now) n)) }
{
    let l = lists::overgrown_len(b, n);
    for i in 0..l {
        if lists::overgrown_amount(b, n, i) != 0 {
            return i;
        }
    }
    l
}

// The z of them are taken off: their vertices go, from the top down.
pub fn drop_tops(
    b: &mut [i64],
    t: &mut [i64],
    n: usize,
    m: usize,
    p: ShrinkProgress,
    z: usize,
) -> ShrinkProgress
    requires { ShrinkWorking b.old t.old m p × (n < node_count (state_of b.old)) × Shrinkable (state_of b.old) n
        × (z ≡ length (empty_tops (overgrown_of (state_of b.old) n))) }
    ensures { ShrinkWorked b.old t.old b.new t.new m p result
        (λ w. fold (drop_step n) w (empty_tops (overgrown_of (state_of b.old) n))) }
{
    let mut q = p;
    for i in 0..z {
        let v = lists::overgrown_vertex(b, n, i);
        q = release::drop_vertex(b, t, n, m, q, v);
    }
    q
}
