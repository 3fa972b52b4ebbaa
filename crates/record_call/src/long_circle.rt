// A circle that is too long to be accepted: what refuses it, without words for its entries.

ghost use Rattle.std.specs.Prelude.{◌≡◌, ◌-◌, ◌/◌, ◌<◌, false, length};
ghost use Rattle.refusal.specs.Refusal.{number};
ghost use Rattle.graph.specs.Layout.{state_of};
ghost use Rattle.graph.specs.Form.{Formed};
ghost use Rattle.calls.specs.Insert.{blossom_refusal};
ghost use Rattle.records.specs.Record.{field, fields};
ghost use Rattle.record_call.specs.Call.{OfKind};
ghost use Rattle.record_call.specs.inner.Long.{rest_refusal};

use calls::refuse;
use graph::node;
use records::bytes;
use refusal::Refusal;

// 3 where an entry is no node, else 6 where one lies in a blossom, else 7.
fn entries_refusal(b: &[i64], body: &[u8]) -> Refusal
    requires { Formed b.now × OfKind body.now 5 }
    ensures { number result ≡ rest_refusal (state_of b.now) false (fields ((length body.now - 2) / 4 - 1) body.now 1) }
{
    let k = (body.len() - 2) / 4 - 1;
    let mut inner = false;
    for i in 0..k {
        let m = bytes::field(body, i + 1);
        if refuse::bad_node(b, m) {
            return Refusal::NoSuch;
        }
        inner = inner | refuse::in_blossom(b, m);
    }
    if inner {
        Refusal::InBlossom
    } else {
        Refusal::NoCircle
    }
}

// What refuses the circle of more than 63 entries that a body has.
pub fn long_refusal(b: &[i64], body: &[u8]) -> Refusal
    requires { Formed b.now × OfKind body.now 5 × (262 < length body.now) }
    ensures { number result ≡ blossom_refusal (state_of b.now) (field body.now 0)
        (fields ((length body.now - 2) / 4 - 1) body.now 1) }
{
    if node::SHRINK < bytes::field(body, 0) {
        return Refusal::NoSuch;
    }
    entries_refusal(b, body)
}
