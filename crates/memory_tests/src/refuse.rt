// What every call but open asks of the memory that it is lent.

ghost use Rattle.std.specs.Prelude.{◌≡◌, true, ◌&&◌, ◌*◌, ◌≤◌, eqb};
ghost use Rattle.graph.specs.Layout.{e_of, sized, memory_fits, block_refusal, memory_refusal, list_refusal};
ghost use Rattle.refusal.specs.Refusal.{refusal_number};

use crate::sound;
use graph::{sizes, words};
use refusal::Refusal;

// Whether block and scratch have their exact lengths, and the sizes are in range.
fn measured(b: &[i64], t: &[i64]) -> bool
    ensures { result ≡ memory_fits b.now t.now }
{
    if sizes::sized(b) {
        let v = words::word(b, 0);
        let e = words::word(b, 1);
        t.len() == sizes::scratch_length(v, e)
    } else {
        false
    }
}

// The same, and whether m words are k for each edge.
fn measured_list(b: &[i64], t: &[i64], m: usize, k: usize) -> bool
    requires { k ≤ 3 }
    ensures { result ≡ memory_fits b.now t.now && eqb m (k * e_of b.now) }
{
    if measured(b, t) {
        let e = words::word(b, 1);
        m == k * e
    } else {
        false
    }
}

// What refuses a block: its length or a size, or that it is not sound.
fn block_refusal(b: &[i64], fits: bool) -> Result<(), Refusal>
    requires { fits ≡ true → sized b.now ≡ true }
    ensures { refusal_number result ≡ block_refusal fits b.now }
{
    if !fits {
        return Err(Refusal::WrongLength);
    }
    if !sound::sound(b) {
        return Err(Refusal::Unsound);
    }
    Ok(())
}

// What refuses a block that is lent alone.
pub fn refusal_alone(b: &[i64]) -> Result<(), Refusal>
    ensures { refusal_number result ≡ block_refusal (sized b.now) b.now }
{
    let fits = sizes::sized(b);
    block_refusal(b, fits)
}

// What refuses block and scratch.
pub fn refusal(b: &[i64], t: &[i64]) -> Result<(), Refusal>
    ensures { refusal_number result ≡ memory_refusal b.now t.now }
{
    let fits = measured(b, t);
    block_refusal(b, fits)
}

// What refuses block and scratch with a list of m words, which must be k for each edge.
pub fn list_refusal(b: &[i64], t: &[i64], m: usize, k: usize) -> Result<(), Refusal>
    requires { k ≤ 3 }
    ensures { refusal_number result ≡ list_refusal b.now t.now m k }
{
    let fits = measured_list(b, t, m, k);
    block_refusal(b, fits)
}
