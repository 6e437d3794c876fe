//! The office answers questions.

use crate::{Answer, Asked, Office, Question};
use book_replay::office_laws::{lines_stand_in_order, within_room};
use office_answers::{BookLines, answer_to};
use std::alloc::Global;

impl Office {
    ghost use Rattle.std.specs.Prelude.{◌≡◌};
    ghost use Rattle.office_answers.specs.Answered.{Answers};
    ghost use Rattle.office_answers.specs.Answering.{answer_to};

    /// The answer to a question. It changes nothing.
    pub fn ask(&self, alloc: Global, question: &Question) -> Result<Answer, Asked>
        ensures { Answers (answer_to self.now.book question.now) result }
    {
        within_room();
        answer_to(alloc, &self.register, &self.book_lines(), question)
    }

    fn book_lines(&self) -> BookLines<'_>
        ensures { result ≡ self.now.book.lines }
    {
        lines_stand_in_order();
        within_room();
        BookLines {
            lines: &self.tables.lines,
        }
    }
}
