// An answer in words.
use judge::answer::Answer;
use std::io;

// An answer as *watch* prints it.
pub fn answer(rt: &impl Print, a: Answer) -> io::Result<()> {
    match a {
        Answer::Exhausted => print!(rt; "exhausted 0 -"),
        Answer::Broken => print!(rt; "broken 0 -"),
        Answer::Holding { live, clear } => {
            let standing = if clear { "clear" } else { "owed" };
            print!(rt; "holding {live} {standing}")
        }
    }
}
