// Each answer's result as a number, and the further numbers that go to the front of `found`.
ghost use Rattle.std.specs.Prelude.{◌≡◌};
ghost use Rattle.book.specs.Answer as Reading;
ghost use Rattle.reader.specs.Steps as Steps;
ghost use Rattle.result.specs.Refusal.{told as result_of};
ghost use Rattle.cavewatch_c.specs.Numbers.{told, book_told, line_told, count_told, made_told, step_told, run_told};
ghost use Rattle.cavewatch_c.specs.Said.{told_by, SaysTold, SmallLine};

use book::check::{Read, Refused};
use reader::steps::StepLine;
use result::Refusal;

// A number alone; a number and one further; three further ones, or six, the number being 0.
#[derive(Clone, Copy, Debug, PartialEq, Eq)]
pub enum Said {
    Number(u64),
    One(u64, u64),
    Three(u64, u64, u64),
    Six(u64, u64, u64, u64, u64, u64),
}

// The number is answered, the further ones are written.
pub fn say(said: Said, found: &mut [u64; 6]) -> u64
    ensures { SaysTold (told_by said) found.old result found.new }
{
    match said {
        Said::Number(n) => {
            return n;
        }
        Said::One(n, a) => {
            found[0] = a;
            return n;
        }
        Said::Three(a, b, c) => {
            found[0] = a;
            found[1] = b;
            found[2] = c;
            return 0;
        }
        Said::Six(a, b, c, d, e, f) => {
            found[0] = a;
            found[1] = b;
            found[2] = c;
            found[3] = d;
            found[4] = e;
            found[5] = f;
            return 0;
        }
    }
}

// A refusal's number and line are one number. A `states` line that stood is told by 1.
pub(crate) fn tell_read(answer: Result<Read, Refused>) -> Said
    requires { SmallLine answer }
    ensures { told_by result ≡ book_told (Reading.result_of answer) }
{
    match answer {
        Ok(read) => Said::Six(
            // `as`: the number fits, and a `TryFrom` would have an error that cannot be
            read.rules as u64,
            read.nodes as u64,
            read.steps_at as u64,
            read.slots as u64,
            u64::from(read.states.is_some()),
            read.states.unwrap_or(0),
        ),
        Err(refused) => Said::Number(u64::from(refused.refusal) + 256 * refused.line as u64),
    }
}

pub fn tell_line(line: Option<StepLine>) -> Said
    ensures { told_by result ≡ told line_told (Steps.result_of line) }
{
    match line {
        Some(line) => Said::Three(line.step, line.truths, line.next as u64),
        None => Said::Number(101),
    }
}

// A count: of a compiled rule's nodes, of the bytes that hold a saved state, of a listing's bytes.
pub fn tell_count(answer: Result<usize, Refusal>) -> Said
    ensures { told_by result ≡ told count_told (result_of answer) }
{
    match answer {
        Ok(n) => Said::One(0, n as u64),
        Err(refusal) => Said::Number(u64::from(refusal)),
    }
}

pub fn tell_made(answer: Result<usize, Refusal>) -> u64
    ensures { result ≡ (told made_told (result_of answer)).number }
{
    match answer {
        Ok(_) => 0,
        Err(refusal) => u64::from(refusal),
    }
}

pub fn tell_step(answer: Result<bool, Refusal>) -> u64
    ensures { result ≡ (told step_told (result_of answer)).number }
{
    match answer {
        Ok(true) => 100,
        Ok(false) => 0,
        Err(refusal) => u64::from(refusal),
    }
}

pub fn tell_run(answer: Result<Option<u64>, Refusal>) -> Said
    ensures { told_by result ≡ told run_told (result_of answer) }
{
    match answer {
        Ok(None) => Said::Number(0),
        Ok(Some(s)) => Said::One(100, s),
        Err(refusal) => Said::Number(u64::from(refusal)),
    }
}
