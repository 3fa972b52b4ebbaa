// The call that a record asks for, on an opened block.

ghost use Rattle.std.specs.Prelude.{◌≡◌, ◌+◌, ◌-◌, ◌*◌, ◌/◌, ◌≤◌, map, length, take, ◌≢◌};
ghost use Rattle.graph.specs.Word.{to_nat};
ghost use Rattle.answers.specs.Outcome.{told};
ghost use Rattle.records.specs.Record.{fields};
ghost use Rattle.record_call.specs.Call.{call_in, OfKind, Opened, Answers};

use crate::long_circle;
use answers::Answer;
use calls::{advance, core_calls, defect};
use graph::words;
use records::bytes;
use refusal::Refusal;

// The entries of a circle, which are all fields but the first, at the front of c; how many they are.
fn circle_into(c: &mut [i64], body: &[u8]) -> usize
    requires { OfKind body.now 5 × (length body.now ≤ 4 * length c.old + 6) }
    ensures { (map to_nat (take result c.new) ≡ fields ((length body.now - 2) / 4 - 1) body.now 1)
        × (result ≤ length c.old) }
{
    let k = (body.len() - 2) / 4 - 1;
    for i in 0..k {
        words::put(c, i, bytes::field(body, i + 1));
    }
    k
}

// The blossom that a body asks for, with its circle in c.
fn blossom_in(b: &mut [i64], t: &mut [i64], body: &[u8], c: &mut [i64]) -> Result<Answer, Refusal>
    requires { Opened b.old t.old × OfKind body.now 5 × (length body.now ≤ 4 * length c.old + 6) }
    ensures { Answers b.old b.new (told result) (call_in body.now) × (t.new ≡ t.old) }
{
    let n = circle_into(c, body);
    let x = bytes::field(body, 0);
    blossom::insert_blossom(b, t, x, &c[0..n])
}

// The same with words of its own. A longer circle is refused without any, so that a call sets few words to zero.
fn blossom(b: &mut [i64], t: &mut [i64], body: &[u8]) -> Result<Answer, Refusal>
    requires { Opened b.old t.old × OfKind body.now 5 }
    ensures { Answers b.old b.new (told result) (call_in body.now) × (t.new ≡ t.old) }
{
    if body.len() <= 262 {
        let mut c = [0i64; 64];
        return blossom_in(b, t, body, &mut c);
    }
    Err(long_circle::long_refusal(b, body))
}

// The call of a body of this kind, which is not one that only reads.
pub fn call(b: &mut [i64], t: &mut [i64], kind: usize, body: &[u8]) -> Result<Answer, Refusal>
    requires { Opened b.old t.old × OfKind body.now kind × (4 ≤ kind) × (kind ≢ 10) × (kind ≢ 12) }
    ensures { Answers b.old b.new (told result) (call_in body.now) × (t.new ≡ t.old) }
{
    match kind {
        4 => defect::insert_defect(b, t, bytes::field(body, 0), bytes::field(body, 1)),
        5 => blossom(b, t, body),
        6 => core_calls::set_grow_state(b, bytes::field(body, 0), bytes::field(body, 1)),
        7 => core_calls::prepare_dual_node_growth(
            b,
            t,
            bytes::field(body, 0),
            bytes::field(body, 1),
        ),
        8 => core_calls::compute_maximum_update_length_dual_node(
            b,
            t,
            bytes::field(body, 0),
            bytes::field(body, 1),
            bytes::field(body, 2) == 1,
        ),
        9 => core_calls::grow_dual_node(
            b,
            t,
            bytes::field(body, 0),
            bytes::signed(bytes::field(body, 1)),
        ),
        11 => advance::advance(b, t, bytes::field(body, 0)),
        _ => core_calls::clear_all(b),
    }
}
