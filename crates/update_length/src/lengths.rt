// Lengths. A length z is kept as z + ZERO, so that a negative one needs no sign.

ghost use Rattle.std.specs.Prelude.{◌≡◌, ◌<◌};
ghost use Rattle.update_length.specs.Scan.{half};
ghost use Rattle.update_length.specs.inner.Length.{length_of, length_end};

// What stands for the length 0.
pub const ZERO: usize = 4398046511104;

// Half of a length, dropped toward zero.
pub fn half(x: usize) -> usize
    requires { x < length_end }
    ensures { (length_of result ≡ half (length_of x)) × (result < length_end) }
{
    if ZERO <= x {
        ZERO + (x - ZERO) / 2
    } else {
        ZERO - (ZERO - x) / 2
    }
}

// The length as a word.
pub fn signed(x: usize) -> i64
    requires { x < length_end }
    ensures { result ≡ length_of x }
{
    if ZERO <= x {
        (x - ZERO) as i64
    } else {
        -1 - (ZERO - x - 1) as i64
    }
}
