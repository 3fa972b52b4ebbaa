// What stands for the answer that a scan meets: a length or a refusal, or the answer of any call.

ghost use Rattle.std.specs.Prelude.{◌≡◌};
ghost use Rattle.answers.specs.Outcome.{Answer as Told, Length, told_by, length_told};

use answers::{Answer, MaxUpdateLength};
use refusal::{Numbered, Refusal};

pub trait Found: Copy {
    ghost as_answer: { Self → Told };

    // The one that is a length.
    fn of_length(length: MaxUpdateLength) -> Self
        ensures { as_answer result ≡ Length length };
}

impl Found for Result<MaxUpdateLength, Refusal> {
    ghost as_answer = { length_told };

    fn of_length(length: MaxUpdateLength) -> Result<MaxUpdateLength, Refusal> {
        Ok(length)
    }
}

// With refusals or with any number in their place.
impl<R: Numbered + Copy> Found for Result<Answer, R> {
    ghost as_answer = { told_by R.number_of };

    fn of_length(length: MaxUpdateLength) -> Result<Answer, R> {
        Ok(Answer::Length(length))
    }
}
