// Signed numbers in decimal.

ghost use Rattle.std.specs.Prelude.{◌+◌, ◌≤◌, length};
ghost use Rattle.records.specs.Text.{signed_text};
ghost use Rattle.records.specs.Write.{Written};

use crate::text;
use graph::words;

// A number, with a minus in front where it is negative.
pub fn signed(t: &mut [u8], n: usize, x: i64) -> usize
    requires { n + 21 ≤ length t.old }
    ensures { Written t.old n t.new result (signed_text x) × (result ≤ n + 21) }
{
    let a = words::magnitude(x);
    if words::non_negative(x) {
        text::decimal(t, n, a)
    } else {
        let m = text::byte(t, n, 45);
        text::decimal(t, m, a)
    }
}
