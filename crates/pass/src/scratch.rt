// The scratch that a pass works in: two sections of 2 E words and one of the smaller of V and 2 E, all zero before and after.

ghost use Rattle.std.specs.Prelude.{◌≡◌, ◌+◌, ◌≤◌, length};
ghost use Rattle.pass.specs.inner.Scratch.{wiped};

// The n words of t from p on are set to zero.
pub fn wipe(t: &mut [i64], p: usize, n: usize)
    requires { p + n ≤ length t.old }
    ensures { t.new ≡ wiped t.old p n }
{
    t[p..p + n].fill(0);
}
