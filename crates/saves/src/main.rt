// saves: reads a book on standard input and saves and restores the monitors of its rules between steps (document 02, order 3). For each rule that
// compiles, monitor A is stepped over the book's steps and never switched off, and monitor B is switched off now and then: saved, lost and
// restored. A place is a number of steps done. By tabs:
// `save`, rule, place, 0 or the refusal, A's bytes in hexadecimal (`-` for none), and `kept` if no other lent byte was changed;
// `flip`, rule, place, and a sign for each bit of A's bytes, if they are 1 to 4 and the place is below 4: `.` if they are restored with that bit turned
// round, `x` if 27 refuses them;
// `back`, rule, place, the answer to saving B and to restoring it (`-` if not tried), its bytes saved anew, and `kept` if the lists hold past the rule's
// nodes what they held, or the lent bytes what they held if it was not saved: where place and rule add up to one more than a multiple of 3;
// `told`, rule, step, the answer to stepping A (100 is a report) and its root's culprit, the same of B;
// `blame`, rule, node, its culprit in A and in B, after the last step;
// `reads`, rule, each byte that is restored, for a rule of one byte;
// `short`, rule, the bytes that it needs, the answers to saving A and to restoring with one byte less lent, and `kept` if bytes and lists hold what they
// held, the nodes apart if no byte is needed.
// A monitor is restored in lists that hold junk. A refused book gives `refused`, number and line. Calls that are to be refused by 1 or 2 are made too,
// and write nothing.
#![tactic(auto)]

mod attempt;
mod misuse;
mod off;
mod places;
mod rule;
mod short;
mod show;

ghost use Rattle.std.specs.Prelude.{◌<◌};
ghost use Rattle.terms.specs.Limits.{book_rules};

use crate::places::run_rule;
use crate::rule::Rule;
use input::{TEXT_ROOM, read_full};
use monitor::table::{Part, Tables};
use opened::{Book, open_book};
use std::io;
use terms::limit::BOOK_CELLS;

// Rule r, if it compiles.
fn run_one(rt: &impl Print, text: &[u8], book: &Book, r: usize) -> io::Result<()>
    requires { r < book_rules }
{
    let mut nodes = [0u64; BOOK_CELLS];
    let Ok(ncount) = book.compile(r, &mut nodes) else {
        return Ok(());
    };
    let span = book.formula(r);
    let rule = Rule {
        number: r,
        tables: Tables::new(&book.ops, &book.nums, &nodes),
        part: Part {
            first: span.first,
            count: span.count,
            nfirst: span.first,
            ncount,
        },
    };
    run_rule(rt, &rule, text, book.read.steps_at)
}

fn run_book(rt: &impl Print, text: &[u8]) -> io::Result<()> {
    match open_book(text) {
        Err(refused) => println!(rt; "refused\t{}\t{}", u64::from(refused.refusal), refused.line),
        Ok(book) => {
            for r in 0..book.read.rules {
                run_one(rt, text, &book, r)?;
            }
            Ok(())
        }
    }
}

fn main(rt: HostRuntime) -> io::Result<()> {
    let mut text = [0u8; TEXT_ROOM];
    let n = read_full(&mut rt.stdin(), &mut text)?;
    run_book(&rt, &text[..n])
}
