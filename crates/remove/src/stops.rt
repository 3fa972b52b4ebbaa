// What stops a debug build once a blossom is prepared: something overgrown, a listed side without holder, or among the
// members' lists a side twice or one that is still held when those of the blossom are not. The sides are marked on two
// arrays of the size that the most edges need.

ghost use Rattle.std.specs.Prelude.{◌≡◌, true, false, ◌&&◌, not, ◌+◌, ◌≤◌, ◌<◌, eqb, length, get_or};
ghost use Rattle.graph.specs.Basic.{all};
ghost use Rattle.graph.specs.State.{side_count, node_count, boundary_of};
ghost use Rattle.graph.specs.Layout.{state_of};
ghost use Rattle.graph.specs.Form.{Formed};
ghost use Rattle.graph.specs.inner.Scans.{once_all, Carry};
ghost use Rattle.calls.specs.Remove.{stops_opening};
ghost use Rattle.remove.specs.inner.Stops.{SidesIn, has_holder, free_by, is_member, member_lists, entries_before, Met};

use graph::{lists, node, rows, side};

// Whether every side in the boundary of node n is held; they are marked 1 then.
fn mark_held(b: &[i64], n: usize, own: &mut [usize]) -> bool
    requires { Formed b.now × SidesIn (state_of b.now) × (n < node_count (state_of b.now))
        × (side_count (state_of b.now) ≤ length own.old) × Carry 1 (boundary_of (state_of b.now) n) 0 own.old }
    ensures { (result ≡ all (has_holder (state_of b.now)) (boundary_of (state_of b.now) n))
        × (result ≡ true → Carry 1 (boundary_of (state_of b.now) n) (length (boundary_of (state_of b.now) n)) own.new) }
{
    let l = lists::boundary_len(b, n);
    for i in 0..l {
        let s = lists::boundary_side(b, n, i);
        if side::holder(b, s) == 0 {
            return false;
        }
        own[s] = 1;
    }
    true
}

// Whether side s is not held once those that `own` marks are not, and `met` does not mark it.
fn is_fresh(b: &[i64], own: &[usize], met: &[usize], s: usize) -> bool
    requires { Formed b.now × (s < side_count (state_of b.now)) × (s < length own.now) × (s < length met.now) }
    ensures { result ≡ free_by (state_of b.now) own.now s && not (eqb (get_or met.now s 0) 1) }
{
    let h = side::holder(b, s);
    ((own[s] == 1) | (h == 0)) & (met[s] != 1)
}

// Whether this is so of the whole boundary of member m, entry by entry; they are marked 1 then.
fn list_free(b: &[i64], n: usize, m: usize, own: &[usize], met: &mut [usize]) -> bool
    requires { Formed b.now × SidesIn (state_of b.now) × (m < node_count (state_of b.now)) × (is_member (state_of b.now) n m ≡ true)
        × (side_count (state_of b.now) ≤ length own.now) × (side_count (state_of b.now) ≤ length met.old)
        × Met (state_of b.now) n own.now (entries_before (state_of b.now) n m) met.old }
    ensures { (result ≡ true → Met (state_of b.now) n own.now (entries_before (state_of b.now) n (m + 1)) met.new)
        × (result ≡ false → false ≡ once_all (free_by (state_of b.now) own.now) (member_lists (state_of b.now) n)) }
{
    let l = lists::boundary_len(b, m);
    for i in 0..l {
        let s = lists::boundary_side(b, m, i);
        if !is_fresh(b, own, met, s) {
            return false;
        }
        met[s] = 1;
    }
    true
}

// The same of node m, where it is a member.
fn member_free(b: &[i64], n: usize, m: usize, own: &[usize], met: &mut [usize]) -> bool
    requires { Formed b.now × SidesIn (state_of b.now) × (m < node_count (state_of b.now)) × (n < 1024)
        × (side_count (state_of b.now) ≤ length own.now) × (side_count (state_of b.now) ≤ length met.old)
        × Met (state_of b.now) n own.now (entries_before (state_of b.now) n m) met.old }
    ensures { (result ≡ true → Met (state_of b.now) n own.now (entries_before (state_of b.now) n (m + 1)) met.new)
        × (result ≡ false → false ≡ once_all (free_by (state_of b.now) own.now) (member_lists (state_of b.now) n)) }
{
    if node::parent(b, m) == n + 1 {
        list_free(b, n, m, own, met)
    } else {
        true
    }
}

// Whether no side stands twice in the members' lists, and each is free by `own`.
fn members_free(b: &[i64], n: usize, own: &[usize]) -> bool
    requires { Formed b.now × SidesIn (state_of b.now) × (n < 1024) × (side_count (state_of b.now) ≤ length own.now) }
    ensures { result ≡ once_all (free_by (state_of b.now) own.now) (member_lists (state_of b.now) n) }
{
    let c = rows::node_count(b);
    let mut met = [0usize; 8192];
    for m in 0..c {
        if !member_free(b, n, m, own, &mut met) {
            return false;
        }
    }
    true
}

// Whether the opening of the prepared node n stops.
pub fn stops_opening(b: &[i64], n: usize) -> bool
    requires { Formed b.now × SidesIn (state_of b.now) × (n < node_count (state_of b.now)) }
    ensures { result ≡ stops_opening (state_of b.now) n }
{
    if lists::overgrown_len(b, n) != 0 {
        return true;
    }
    let mut own = [0usize; 8192];
    if mark_held(b, n, &mut own) {
        !members_free(b, n, &own)
    } else {
        true
    }
}
