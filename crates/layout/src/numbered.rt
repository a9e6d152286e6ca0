// What says which question is a no: the question itself, or a number alone, as a caller may have it, which need be no question's.

ghost use Rattle.std.specs.Prelude.{◌≡◌, ℕ};
ghost use Rattle.layout.specs.Questions.{number_of};

use crate::question::Question;

pub trait Numbered: Copy {
    ghost number: { Self → ℕ };

    fn from_question(question: Question) -> Self
        ensures { number result ≡ number_of question };

    fn number(self) -> u8
        ensures { result ≡ number self };
}

impl Numbered for Question {
    ghost number = { number_of };

    fn from_question(question: Question) -> Question {
        question
    }

    fn number(self) -> u8 {
        Question::number(self)
    }
}

impl Numbered for u8 {
    ghost number = { λ number. number };

    fn from_question(question: Question) -> u8 {
        Question::number(question)
    }

    fn number(self) -> u8 {
        self
    }
}
