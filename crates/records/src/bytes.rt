// Numbers of bytes, little-endian.

ghost use Rattle.std.specs.Prelude.{◌≡◌, ◌+◌, ◌*◌, ◌<◌, ◌≤◌, length};
ghost use Rattle.records.specs.Record.{pair_at, four_at, field, signed};

// 2 bytes from place i.
pub fn pair(b: &[u8], i: usize) -> usize
    requires { i + 1 < length b.now }
    ensures { (result ≡ pair_at b.now i) × (result ≤ 65535) }
{
    usize::from(b[i]) + 256 * usize::from(b[i + 1])
}

// 4 bytes from place i, without sign.
pub fn four(b: &[u8], i: usize) -> usize
    requires { i + 3 < length b.now }
    ensures { (result ≡ four_at b.now i) × (result ≤ 4294967295) }
{
    pair(b, i) + 65536 * pair(b, i + 2)
}

// Field i of a body, which begins with its kind.
pub fn field(b: &[u8], i: usize) -> usize
    requires { 4 * i + 5 < length b.now }
    ensures { (result ≡ field b.now i) × (result ≤ 4294967295) }
{
    four(b, 2 + 4 * i)
}

// A number of 32 bits with its sign.
pub fn signed(x: usize) -> i64
    requires { x ≤ 4294967295 }
    ensures { result ≡ signed x }
{
    if x < 2147483648 {
        x as i64
    } else {
        -1 - (4294967295 - x) as i64
    }
}
