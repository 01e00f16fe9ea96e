// The step lines of a book, one by one: from the place where they begin, each answer names the place of the next.
ghost use Rattle.std.specs.Prelude.{◌≡◌};
ghost use Rattle.result.specs.Result.{given};
ghost use Rattle.reader.specs.Steps.{result_of, next_step};

use line::line::{Content, read_line};
use line::text::{find, past, upto};

// A step, and the place behind its line.
#[derive(Clone, Copy, Debug, PartialEq, Eq)]
pub struct StepLine {
    pub step: u64,
    pub truths: u64,
    pub next: usize,
}

// The step line at a place, if one stands there. A last line without LF is no line.
pub fn next_step(text: &[u8], at: usize) -> Option<StepLine>
    ensures { result_of result ≡ given (next_step text.now at) }
{
    if text.len() <= at {
        return None;
    }
    let rest = past(text, at);
    let n = find(rest, 10);
    if rest.len() <= n {
        return None;
    }
    let Ok(content) = read_line(upto(rest, n)) else {
        return None;
    };
    let Content::Step { step, truths } = content else {
        return None;
    };
    Some(StepLine {
        step,
        truths,
        next: at + (n + 1),
    })
}
