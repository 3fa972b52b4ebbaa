// Text written into bytes: each function writes from place n on and gives the place behind.

ghost use Rattle.std.specs.Prelude.{◌≡◌, [], ◌∷◌, ◌+◌, ◌/◌, ◌%◌, ◌<◌, ◌≤◌, length};
ghost use Rattle.records.specs.Text.{decimal, spaced};
ghost use Rattle.records.specs.Write.{Written};

// One byte.
pub fn byte(t: &mut [u8], n: usize, x: u8) -> usize
    requires { n < length t.old }
    ensures { Written t.old n t.new result (x ∷ []) }
{
    t[n] = x;
    n + 1
}

// The bytes of a word.
pub fn word(t: &mut [u8], n: usize, w: &[u8]) -> usize
    requires { n + length w.now ≤ length t.old }
    ensures { Written t.old n t.new result w.now }
{
    let m = n + w.len();
    graph::words::copy_each(&mut t[n..m], w);
    m
}

// A digit's byte.
fn digit(x: usize) -> u8
    requires { x < 10 }
    ensures { result ≡ 48 + x }
{
    48 + x as u8
}

// Two digits.
fn two(t: &mut [u8], n: usize, x: usize) -> usize
    requires { (n + 2 ≤ length t.old) × (x < 100) }
    ensures { Written t.old n t.new result ((48 + x / 10) ∷ (48 + x % 10) ∷ []) }
{
    let m = byte(t, n, digit(x / 10));
    byte(t, m, digit(x % 10))
}

// A number in decimal, two digits at a time.
pub fn decimal(t: &mut [u8], n: usize, x: usize) -> usize
    requires { n + length (decimal x) ≤ length t.old }
    ensures { Written t.old n t.new result (decimal x) }
{
    if x < 10 {
        byte(t, n, digit(x))
    } else if x < 100 {
        two(t, n, x)
    } else {
        let m = decimal(t, n, x / 100);
        two(t, m, x % 100)
    }
}

// A space and a number.
fn number(t: &mut [u8], n: usize, x: usize) -> usize
    requires { n + 1 + length (decimal x) ≤ length t.old }
    ensures { Written t.old n t.new result (32 ∷ decimal x) }
{
    let m = byte(t, n, 32);
    decimal(t, m, x)
}

// Each number with a space in front.
pub fn numbers(t: &mut [u8], n: usize, ns: &[usize]) -> usize
    requires { n + length (spaced ns.now) ≤ length t.old }
    ensures { Written t.old n t.new result (spaced ns.now) }
{
    let mut m = n;
    for x in ns {
        m = number(t, m, *x);
    }
    m
}
