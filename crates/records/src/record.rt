// Whether a body is a record.

ghost use Rattle.std.specs.Prelude.{◌≡◌, ◌<◌, get_or};
ghost use Rattle.records.specs.Record.{field_counts, fields_fit};
ghost use Rattle.records.specs.Decode.{length_fits, well_formed};

use crate::bytes;

// How many fields a kind has.
fn field_count(kind: usize) -> usize
    ensures { result ≡ get_or field_counts kind 0 }
{
    match kind {
        1 => 4,
        2 => 3,
        3 => 1,
        4 => 2,
        5 => 1,
        6 => 2,
        7 => 2,
        8 => 3,
        9 => 2,
        11 => 1,
        _ => 0,
    }
}

// Whether n bytes are the fields of a kind.
fn fields_fit(kind: usize, n: usize) -> bool
    ensures { result ≡ fields_fit kind n }
{
    let k = n / 4;
    let m = field_count(kind);
    (1 <= kind) & (kind <= 13) & (n % 4 == 0) & ((k == m) | ((kind == 5) & (1 <= k)))
}

// Whether kind and length of a body fit.
fn length_fits(body: &[u8]) -> bool
    ensures { result ≡ length_fits body.now }
{
    let n = body.len();
    if n < 2 {
        return false;
    }
    fields_fit(bytes::pair(body, 0), n - 2)
}

// Whether a body is a record.
pub fn well_formed(body: &[u8]) -> bool
    ensures { result ≡ well_formed body.now }
{
    if length_fits(body) {
        if bytes::pair(body, 0) == 8 {
            return bytes::field(body, 2) <= 1;
        }
        return true;
    }
    false
}
