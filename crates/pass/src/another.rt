// Whether another pass is called for, as a number: 0 for no. A struct that ends with a bool is copied with the bytes behind it.

ghost use Rattle.std.specs.Prelude.{◌≡◌};
ghost use Rattle.pass.specs.inner.Another.{called, called_if};

// x, or 1 where z calls for another pass.
pub fn called_if(z: bool, x: usize) -> usize
    ensures { result ≡ called_if z x }
{
    if z { 1 } else { x }
}

// Whether another pass is called for.
pub fn called(x: usize) -> bool
    ensures { result ≡ called x }
{
    x != 0
}
