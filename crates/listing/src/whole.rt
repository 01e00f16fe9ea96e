// Listing a whole book: it is read, its rules are listed, its steps stepped.
ghost use Rattle.std.specs.Prelude.{◌≡◌};
ghost use Rattle.text.specs.Tape.{Wrote};
ghost use Rattle.text.specs.Lent.{tape_of, SameOut};
ghost use Rattle.listing_text.specs.Listing.{listing};
ghost use Rattle.listing_size.specs.Handed.{Handed, HandedOpening};
ghost use Rattle.listing.specs.Books.{columns_of, columns_in};
ghost use Rattle.listing.specs.Lists.{Answers, Within, list_call};

use crate::head::put_head;
use crate::tail::put_tail;
use book::state::state_count;
use encoding::Opening;
use listing_line::plan_line::put_plan;
use listing_report::put_refused;
use listing_rules::lists::{BookLists, RuleTables};
use listing_rules::place::encode_rules;
use opened::Book;
use result::Refusal;
use terms::limit::{BOOK_CELLS, BOOK_RULES, LISTING_BYTES};
use text::write::Tape;

// The lists of a book in memory.
fn lists(book: &Book) -> BookLists
    ensures lists { columns_of result ≡ columns_in book.now }
    ensures len { result.len ≡ book.now.read.rules }
{
    BookLists {
        labels: &book.labels,
        lens: &book.lens,
        kinds: &book.kinds,
        firsts: &book.firsts,
        counts: &book.counts,
        formulas: book.formulas(),
        len: book.read.rules,
    }
}

// An accepted book, whose steps begin at a place of the text, and whose states and slots take so many bits.
fn list_accepted(text: &[u8], from: usize, book: &BookLists, state: u64, vars: u64, tape: &mut Tape)
    requires { Handed text.now (columns_of book.now) book.now.len from state vars }
    ensures wrote { Wrote (tape_of tape.old) (listing text.now) (tape_of tape.new) }
    ensures same { SameOut tape.old tape.new }
{
    let mut nodes: [u64; BOOK_CELLS] = [0; BOOK_CELLS];
    let mut nfirsts: [usize; BOOK_RULES] = [0; BOOK_RULES];
    let mut ncounts: [usize; BOOK_RULES] = [0; BOOK_RULES];
    let mut refusals: [u64; BOOK_RULES] = [0; BOOK_RULES];
    let mut compiled = RuleTables {
        nodes: &mut nodes,
        nfirsts: &mut nfirsts,
        ncounts: &mut ncounts,
        refusals: &mut refusals,
    };
    put_head(tape, book, state + vars, &mut compiled);
    let rules = compiled.rules(book);
    let encoding = encode_rules(&rules, state, vars);
    put_plan(tape, encoding);
    put_tail(text, from, &rules, tape);
}

// An accepted book.
fn list_opened(text: &[u8], book: &Book, tape: &mut Tape)
    requires { HandedOpening text.now (columns_in book.now) book.now.widths book.now.read.rules book.now.read.steps_at
        book.now.read.slots book.now.read.states }
    ensures wrote { Wrote (tape_of tape.old) (listing text.now) (tape_of tape.new) }
    ensures same { SameOut tape.old tape.new }
{
    let read = book.read;
    let opening = Opening {
        states: state_count(read.states),
        widths: &book.widths,
        slots: read.slots,
    };
    let state = opening.state_bits();
    let vars = opening.slot_bits();
    list_accepted(text, read.steps_at, &lists(book), state, vars, tape);
}

// A book's listing, or its refusal.
fn list_text(text: &[u8], tape: &mut Tape)
    ensures wrote { Wrote (tape_of tape.old) (listing text.now) (tape_of tape.new) }
    ensures same { SameOut tape.old tape.new }
{
    // read in place: an answer that holds a book is copied, 14 KB of it
    let mut book = Book::blank();
    match book.read_in(text) {
        // `as`: the number fits, and a `TryFrom` would have an error that cannot be
        Err(refused) => put_refused(tape, u64::from(refused.refusal), refused.line as u64),
        Ok(()) => list_opened(text, &book, tape),
    }
}

// The entry point: the listing of a book into a lent output of at least 262,144 bytes. Answers its length.
pub fn list_book(text: &[u8], out: &mut [u8]) -> Result<usize, Refusal>
    ensures answers { Answers (list_call text.now out.old) result out.new }
    ensures within { Within result out.new }
{
    if out.len() < LISTING_BYTES {
        return Err(Refusal::Short);
    }
    let mut tape = Tape { out, at: 0 };
    list_text(text, &mut tape);
    Ok(tape.at)
}
