// The test of the active list: nodes, each once.

ghost use Rattle.std.specs.Prelude.{◌≡◌, ltb};
ghost use Rattle.graph.specs.State.{node_count};
ghost use Rattle.graph.specs.Sound.{active_sound};
ghost use Rattle.graph.specs.Layout.{state_of};
ghost use Rattle.graph.specs.Form.{Laid};
ghost use Rattle.graph.specs.inner.Scans.{once_all};

use graph::rows;

// Whether the active list holds nodes, none twice: those that were met are marked 1.
fn active_once(b: &[i64]) -> bool
    requires { Laid b.now }
    ensures { result ≡ once_all (λ n. ltb n (node_count (state_of b.now))) (state_of b.now).active }
{
    let k = rows::active_count(b);
    let m = rows::node_count(b);
    let mut marks = [0u8; 1024];
    for i in 0..k {
        let n = rows::active_node(b, i);
        if m <= n {
            return false;
        }
        if marks[n] != 1 {
            marks[n] = 1;
        } else {
            return false;
        }
    }
    true
}

// Whether the active list is sound.
pub fn active_sound(b: &[i64]) -> bool
    requires { Laid b.now }
    ensures { result ≡ active_sound (state_of b.now) }
{
    active_once(b)
}
