// The sizes of a graph, and the lengths of a block and of a scratch that they fix.

ghost use Rattle.std.specs.Prelude.{◌≡◌, true};
ghost use Prim.Native.Nat.{◌≤◌};
ghost use Rattle.graph.specs.Open.{sizes_ok};
ghost use Rattle.graph.specs.Layout.{block_length, scratch_length, sized};

use crate::words;

// Whether V, E, N and L are within their limits.
pub fn sizes_ok(v: usize, e: usize, n: usize, l: usize) -> bool
    ensures { result ≡ sizes_ok v e n l }
{
    (1 <= v) & (v <= 1024) & (1 <= e) & (e <= 4096) & (1 <= n) & (n <= 1024) & (l <= 65536)
}

// The words of a block.
pub fn block_length(v: usize, e: usize, n: usize, l: usize) -> usize
    requires { sizes_ok v e n l ≡ true }
    ensures { result ≡ block_length v e n l }
{
    16 + 4 * v + 12 * e + 8 * n + l
}

// The words of a scratch.
pub fn scratch_length(v: usize, e: usize) -> usize
    requires { e ≤ 4096 }
    ensures { result ≡ scratch_length v e }
{
    4 * e + v.min(2 * e)
}

// Whether the sizes are in range and the block has their length.
pub fn sized(b: &[i64]) -> bool
    ensures { result ≡ sized b.now }
{
    if b.len() < 16 {
        return false;
    }
    let v = words::word(b, 0);
    let e = words::word(b, 1);
    let n = words::word(b, 2);
    let l = words::word(b, 3);
    if sizes_ok(v, e, n, l) {
        b.len() == block_length(v, e, n, l)
    } else {
        false
    }
}
