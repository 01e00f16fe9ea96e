// The check over a book's bytes: its refusal with the line, or how much it holds.
ghost use Rattle.std.specs.Prelude.{◌≡◌};
ghost use Rattle.line.specs.Text.{lines};
ghost use Rattle.book.specs.Book.{empty, read_on, read, book_result, ended};
ghost use Rattle.book.specs.Answer.{result_of};
ghost use Rattle.book.specs.Checked.{Lined};

use crate::state::start;
use line::line::read_line;
use line::text::{find, past, upto};
use result::Refusal;
use terms::limit::BOOK_BYTES;

// How much a book holds, where its step lines begin, and its count of states.
#[derive(Clone, Copy, Debug, PartialEq, Eq)]
pub struct Read {
    pub rules: usize,
    pub nodes: usize,
    pub steps_at: usize,
    pub slots: usize,
    pub states: Option<u64>,
}

// Why a book is refused, and at which line: 0 for the whole book.
#[derive(Clone, Copy, Debug, PartialEq, Eq)]
pub struct Refused {
    pub refusal: Refusal,
    pub line: usize,
}

// The lines one after the other.
fn check_lines(text: &[u8]) -> Result<Read, Refused>
    requires { Lined text.now }
    ensures { result_of result ≡ book_result (read_on empty 0 (lines text.now)) }
{
    let mut s = start();
    let mut at: usize = 0;
    let mut line: usize = 0;
    // a line is as long as its text says, so the loop moves by places
    while at < text.len() {
        let rest = past(text, at);
        let n = find(rest, 10);
        let taken = s.take(read_line(upto(rest, n)), n + 1);
        let here = line + 1;
        match taken {
            Err(refusal) => {
                return Err(Refused {
                    refusal,
                    line: here,
                });
            }
            Ok(next) => {
                s = next;
                at += n + 1;
                line = here;
            }
        }
    }
    if 0 < s.due.depth {
        return Err(Refused {
            refusal: Refusal::Unfinished,
            line,
        });
    }
    Ok(Read {
        rules: s.rules,
        nodes: s.nodes,
        steps_at: s.head,
        slots: s.slots,
        states: s.states,
    })
}

// Whether a text is empty or ends in LF.
fn is_ended(text: &[u8]) -> bool
    ensures { result ≡ ended text.now }
{
    match text {
        [] => true,
        [.., last] => *last == 10,
    }
}

// The check of a whole book.
pub fn check(text: &[u8]) -> Result<Read, Refused>
    ensures { result_of result ≡ book_result (read text.now) }
{
    if BOOK_BYTES < text.len() {
        return Err(Refused {
            refusal: Refusal::Long,
            line: 0,
        });
    }
    if is_ended(text) {
        return check_lines(text);
    }
    Err(Refused {
        refusal: Refusal::Unended,
        line: 0,
    })
}
