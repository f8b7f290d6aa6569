// A line in six words of 32 bits. Every six words read as a line.
ghost use Rattle.std.specs.Prelude.{◌≡◌};
ghost use Rattle.lines.specs.LineWords.{line_by, line_of_words, words_by, WordsOf};

use records::line::Line;
use records::number;
use records::word::{raw_of, tag_of};
use remainders::word::{byte_in, number_in};

// Words that a line does without are 0.
#[derive(Clone, Copy)]
pub struct LineWords {
    // Its kind, as in its record.
    pub kind: u32,
    // Its clocks A and B.
    pub a: u32,
    pub b: u32,
    // The clock D of a delay line or a counted line.
    pub d: u32,
    // The raw word of a sporadic line's t or a relation's p, the delay of a delay line, or the count of a counted line.
    pub x: u32,
    // The raw word of a relation's q.
    pub y: u32,
}

// The line of a kind, with its clocks A, B and D and two numbers, of which a counted line's last byte counts; an unknown kind is kills.
#[tactic(auto, unfolding(crate::specs::LineWords::line_by))]
fn line_by(kind: u16, a: u8, b: u8, d: u8, x: u16, y: u16) -> Line
    ensures { result ≡ line_by kind a b d x y }
{
    match kind {
        number::SPORADIC => Line::Sporadic { a, b, t: tag_of(x) },
        number::RELATION => Line::Relation {
            a,
            b,
            p: tag_of(x),
            q: tag_of(y),
        },
        number::IMPLIES => Line::Implies { a, b },
        number::EXCLUDES => Line::Excludes { a, b },
        number::DELAYED => Line::Delayed { a, b, d, by: x },
        number::WEAKLY => Line::Weakly { a, b },
        number::STRICTLY => Line::Strictly { a, b },
        number::COUNTED => Line::Counted {
            a,
            b,
            d,
            n: byte_in(u32::from(x)),
        },
        _ => Line::Kills { a, b },
    }
}

// The line of six words: of a clock the last byte counts, of a kind and a number the last two.
pub fn line_of_words(w: LineWords) -> Line
    ensures { result ≡ line_of_words w }
{
    line_by(
        number_in(w.kind),
        byte_in(w.a),
        byte_in(w.b),
        byte_in(w.d),
        number_in(w.x),
        number_in(w.y),
    )
}

fn words_by(kind: u16, a: u8, b: u8, d: u8, x: u16, y: u16) -> LineWords
    ensures { result ≡ words_by kind a b d x y }
{
    LineWords {
        kind: u32::from(kind),
        a: u32::from(a),
        b: u32::from(b),
        d: u32::from(d),
        x: u32::from(x),
        y: u32::from(y),
    }
}

// A line's six words.
pub fn words_of_line(l: Line) -> LineWords
    ensures { WordsOf l result }
{
    match l {
        Line::Sporadic { a, b, t } => words_by(number::SPORADIC, a, b, 0, raw_of(t), 0),
        Line::Relation { a, b, p, q } => {
            words_by(number::RELATION, a, b, 0, raw_of(p), raw_of(q))
        }
        Line::Implies { a, b } => words_by(number::IMPLIES, a, b, 0, 0, 0),
        Line::Excludes { a, b } => words_by(number::EXCLUDES, a, b, 0, 0, 0),
        Line::Delayed { a, b, d, by } => words_by(number::DELAYED, a, b, d, by, 0),
        Line::Weakly { a, b } => words_by(number::WEAKLY, a, b, 0, 0, 0),
        Line::Strictly { a, b } => words_by(number::STRICTLY, a, b, 0, 0, 0),
        Line::Kills { a, b } => words_by(number::KILLS, a, b, 0, 0, 0),
        Line::Counted { a, b, d, n } => words_by(number::COUNTED, a, b, d, u16::from(n), 0),
    }
}
