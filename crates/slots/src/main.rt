// slots: reads a book on standard input, compiles each rule and prints what the calls on compiled rules answer, by tabs:
// `plan` and its five numbers, and `var`, a slot's number, first bit and width, by `layout`; `rule`, number, first bit and bits by `layout`, bits by
// `layout_for`; `slot`, rule, node, offset, bits of the pending flag, of the remaining count, of the remembered antecedent, by `node_slot`; `alike`,
// two rules, by `alike`; or `refused`, number and line of a refused book. Calls that are to be refused are made too, and write nothing.
#![tactic(auto)]

mod compile;
mod misuse;
mod show;

ghost use Rattle.std.specs.Prelude.{◌≤◌};
ghost use Rattle.terms.specs.Limits.{book_rules};

use crate::compile::Rules;
use crate::misuse::try_misuse;
use crate::show::{show_alike, show_plan, show_rules, show_vars};
use encoding::Opening;
use input::{TEXT_ROOM, read_full};
use opened::{Book, open_book};
use std::io;
use terms::limit::{BOOK_CELLS, BOOK_RULES};

// The rules of an accepted book: compiled, laid out, shown, and compared.
fn run_rules(rt: &impl Print, book: Book) -> io::Result<()>
    requires { book.read.rules ≤ book_rules }
{
    let widths = book.widths;
    let opening = Opening {
        states: book.read.states.unwrap_or(0),
        widths: &widths,
        slots: book.read.slots,
    };
    let mut rules = Rules {
        book,
        nodes: [0; BOOK_CELLS],
        ncounts: [0; BOOK_RULES],
        refusals: [0; BOOK_RULES],
    };
    rules.compile();
    let laid = rules.lay_out(rules.count(), &opening);
    show_plan(rt, laid.plan)?;
    show_vars(rt, &laid, &opening)?;
    show_rules(rt, &rules, &laid)?;
    show_alike(rt, &rules)?;
    try_misuse(rt, &mut rules, &opening)
}

fn run_book(rt: &impl Print, text: &[u8]) -> io::Result<()> {
    match open_book(text) {
        Err(refused) => println!(rt; "refused\t{}\t{}", u64::from(refused.refusal), refused.line),
        Ok(book) => run_rules(rt, book),
    }
}

fn main(rt: HostRuntime) -> io::Result<()> {
    let mut text = [0u8; TEXT_ROOM];
    let n = read_full(&mut rt.stdin(), &mut text)?;
    run_book(&rt, &text[..n])
}
