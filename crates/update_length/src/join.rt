// What a scan of a boundary knows, side after side.

ghost use Rattle.std.specs.Prelude.{◌≡◌, ◌<◌};
ghost use Rattle.answers.specs.Outcome.{Answer};
ghost use Rattle.update_length.specs.Scan.{with_look, scan_answer};
ghost use Rattle.update_length.specs.inner.Length.{length_end, look_by, room_in, scan_by, within_in, is_over, KnowsBy};

use crate::found::Found;
use crate::lengths;
use crate::look::Look;
use answers::MaxUpdateLength;
use refusal::Refusal;

// What a scan knows so far; its answer is a length or a refusal where nothing else is said.
#[derive(Clone, Copy)]
pub enum Scan<A = Result<MaxUpdateLength, Refusal>> {
    OpenEnded, // no limit
    Within(usize), // the smallest length
    Over(A), // the scan has met its answer
}

// What is known after one more side, whatever answer f is read from what is met.
pub fn join<A: Copy>(r: Scan<A>, l: Look<A>) -> Scan<A>
    requires { (within_in r < length_end) × (room_in l < length_end) }
    ensures { (f : A → Answer) → KnowsBy f result (with_look (scan_by f r) (look_by f l)) }
{
    match r {
        Scan::Over(a) => Scan::Over(a),
        Scan::OpenEnded => match l {
            Look::Skip => Scan::OpenEnded,
            Look::Room(x) => Scan::Within(x),
            Look::Meets(a) => Scan::Over(a),
        },
        Scan::Within(y) => match l {
            Look::Skip => Scan::Within(y),
            Look::Room(x) => Scan::Within(y.min(x)),
            Look::Meets(a) => Scan::Over(a),
        },
    }
}

// Whether a scan has met its answer.
pub fn is_over<A: Copy>(r: Scan<A>) -> bool
    ensures { (f : A → Answer) → result ≡ is_over (scan_by f r) }
{
    match r {
        Scan::OpenEnded => false,
        Scan::Within(_) => false,
        Scan::Over(_) => true,
    }
}

// The answer by what the scan of a boundary knows; whether the boundary is empty.
pub fn scan_answer<A: Found>(empty: bool, r: Scan<A>) -> A
    requires { within_in r < length_end }
    ensures { A.as_answer result ≡ scan_answer empty (scan_by A.as_answer r) }
{
    match r {
        Scan::OpenEnded => A::of_length(MaxUpdateLength::Unlimited(empty)),
        Scan::Within(x) => A::of_length(MaxUpdateLength::NonZeroGrow(lengths::signed(x), empty)),
        Scan::Over(a) => a,
    }
}
