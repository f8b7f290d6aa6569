// The lines of *watch* and *columns*.
ghost use Rattle.std.specs.Prelude.{◌≡◌, ◌≤◌};
ghost use Rattle.judge.specs.Answer.{answer_of};
ghost use Rattle.text.specs.Text.{text_of, answer_line, refusal_line, column_line};

use crate::build::{Text, blank, push_decimal, push_hundredths, push_word};
use judge::answer::Answer;
use records::word::raw_of;

// 'refused 16' and its newline.
pub(crate) const LONGEST_REFUSAL: usize = 11;

// An instant's number and what was answered to it.
pub fn answer_line(number: usize, answer: Answer) -> Text
    ensures { (result.len ≤ 64) × (text_of result ≡ answer_line number (answer_of answer)) }
{
    let first = push_decimal(blank(), number);
    match answer {
        Answer::Exhausted => push_word(first, b" exhausted 0 -\n"),
        Answer::Broken => push_word(first, b" broken 0 -\n"),
        Answer::Holding { live, clear } => {
            let holding = push_word(first, b" holding ");
            let counted = push_decimal(holding, live);
            if clear {
                push_word(counted, b" clear\n")
            } else {
                push_word(counted, b" owed\n")
            }
        }
    }
}

// A refusal's number.
pub fn refusal_line(n: u8) -> Text
    ensures { (result.len ≤ 64) × (text_of result ≡ refusal_line n) }
{
    let refused = push_word(blank(), b"refused ");
    let number = push_decimal(refused, usize::from(n));
    push_word(number, b"\n")
}

// A tag: its raw word, and its count in hundredths of a degree.
pub fn column_line(tag: i16) -> Text
    ensures { (result.len ≤ 64) × (text_of result ≡ column_line tag) }
{
    let raw = push_decimal(blank(), usize::from(raw_of(tag)));
    let space = push_word(raw, b" ");
    let count = push_hundredths(space, tag);
    push_word(count, b"\n")
}
