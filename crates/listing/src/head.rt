// The lines of a book's rules.
ghost use Rattle.std.specs.Prelude.{◌^◌, ◌<◌};
ghost use Rattle.text.specs.Lent.{tape_of, SameOut};
ghost use Rattle.listing_rules.specs.Lists.{SameRules};
ghost use Rattle.listing.specs.Books.{columns_of, lists_of};
ghost use Rattle.listing.specs.LentLists.{Readied, RuleReady, RuleListed, RulesListed};
ghost use Rattle.listing.specs.Whole.{KnownBook, Roomed, HeadListed};

use line::text::{past, upto};
use listing_line::rule::Compiled;
use listing_rules::compile::compile_rules;
use listing_rules::lists::{BookLists, PlacedRules, RuleTables};
use listing_rules::place::place_rules;
use listing_section::section::put_section;
use plan::layout::RuleBits;
use terms::limit::{BOOK_RULES, LABEL_BYTES};
use text::write::Tape;

// The lines of rule r, with what compiling gave.
pub(crate) fn put_rule_at(tape: &mut Tape, placed: &PlacedRules, r: usize, c: Result<Compiled, u64>)
    requires { RuleReady (lists_of placed.now) placed.now.rules.len r c }
    ensures wrote { RuleListed (lists_of placed.now) placed.now.rules.len r c (tape_of tape.old) (tape_of tape.new) }
    ensures same { SameOut tape.old tape.new }
{
    let rules = &placed.rules;
    let rest = past(placed.labels, LABEL_BYTES * r);
    let label = upto(rest, placed.lens[r]);
    let part = rules.part(r);
    put_section(
        tape,
        &rules.tables,
        label,
        // `as`: the number fits, and a `TryFrom` would have an error that cannot be
        r as u64,
        rules.kinds[r],
        part,
        c,
    );
}

// The lines of all rules.
pub(crate) fn put_rules(tape: &mut Tape, placed: &PlacedRules)
    requires { Readied (lists_of placed.now) placed.now.rules.len }
    ensures wrote { RulesListed (lists_of placed.now) placed.now.rules.len (tape_of tape.old) (tape_of tape.new) }
    ensures same { SameOut tape.old tape.new }
{
    for r in 0..placed.rules.len {
        let c = placed.compiling_at(r);
        put_rule_at(tape, placed, r, c);
    }
}

// The rules are compiled and placed, the monitors beginning at bit `base`, and their lines written.
pub(crate) fn put_head(tape: &mut Tape, book: &BookLists, base: u64, compiled: &mut RuleTables)
    requires { (KnownBook (columns_of book.now) book.now.len)
        × ((Roomed compiled.old.nodes.now compiled.old.nfirsts.now compiled.old.ncounts.now compiled.old.refusals.now) × (base < 2 ^ 63)) }
    ensures listed { HeadListed (columns_of book.now) book.now.len base compiled.new.nodes.now compiled.new.nfirsts.now compiled.new.ncounts.now
        compiled.new.refusals.now (tape_of tape.old) (tape_of tape.new) }
    ensures same { SameRules compiled.old compiled.new }
    ensures out { SameOut tape.old tape.new }
{
    let mut starts: [u64; BOOK_RULES] = [0; BOOK_RULES];
    let mut bits: [u64; BOOK_RULES] = [0; BOOK_RULES];
    compile_rules(book, compiled);
    let rules = compiled.rules(book);
    let mut places = RuleBits {
        starts: &mut starts,
        bits: &mut bits,
    };
    place_rules(&rules, base, &mut places);
    let placed = PlacedRules {
        labels: book.labels,
        lens: book.lens,
        rules,
        starts: &starts,
        bits: &bits,
    };
    put_rules(tape, &placed);
}
