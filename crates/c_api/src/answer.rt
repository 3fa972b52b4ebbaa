// What an exported call tells at the front of a lent list, beside plain answers.

ghost use Rattle.std.specs.Prelude.{◌≡◌, ◌≤◌, length};
ghost use Rattle.answers.specs.Numbers.{Tells};
ghost use Rattle.answers.specs.Outcome.{accepted_as, told_by};
ghost use Rattle.c_api.specs.Words.{open_numbers, open_number_by, count_numbers, short_list, short_count};

use answers::{Answer, front, tell, tell_refusal};
use refusal::{Numbered, Refusal};

// A list that is too short for an answer: refused 1, if it has room for that; how many numbers are told.
pub fn refuse_short(list: &mut [usize]) -> usize
    ensures { (result ≡ short_count list.old) × (list.new ≡ short_list list.old) }
{
    if list.len() < 2 {
        return 0;
    }
    front(list, &[11, 1])
}

// An opening with the number k of its refusal, 0 where it is done.
fn tell_open(list: &mut [usize], k: usize) -> usize
    requires { 5 ≤ length list.old }
    ensures { Tells (open_numbers k) list.old list.new result }
{
    if k == 0 {
        front(list, &[7])
    } else {
        front(list, &[11, k])
    }
}

// What an opening answers is told at the front of the list; how many numbers.
pub fn tell_opened<R: Numbered>(list: &mut [usize], opened: Result<(), R>) -> usize
    requires { 5 ≤ length list.old }
    ensures { Tells (open_numbers (open_number_by R.number_of opened)) list.old list.new result }
{
    match opened {
        Ok(()) => tell_open(list, 0),
        Err(refusal) => tell_open(list, refusal.to_number()),
    }
}

// An answer that is no refusal, of a reading that counts: one that is done tells how many.
fn tell_count(list: &mut [usize], a: Answer, count: usize) -> usize
    requires { 5 ≤ length list.old }
    ensures { Tells (count_numbers (accepted_as a) count) list.old list.new result }
{
    match a {
        Answer::Done => front(list, &[7, count]),
        _ => tell(list, Ok::<Answer, Refusal>(a)),
    }
}

// What such a reading answers.
pub fn tell_counted<R: Numbered>(
    list: &mut [usize],
    answer: Result<Answer, R>,
    count: usize,
) -> usize
    requires { 5 ≤ length list.old }
    ensures { Tells (count_numbers (told_by R.number_of answer) count) list.old list.new result }
{
    match answer {
        Ok(a) => tell_count(list, a, count),
        Err(refusal) => tell_refusal(list, refusal),
    }
}
