// The `report`, `end` and `refused` lines of a listing.
#![tactic(auto)]

ghost use Rattle.std.specs.Prelude.{[], ◌∷◌};
ghost use Rattle.number.specs.Digits.{decimal};
ghost use Rattle.text.specs.Tape.{Wrote, Culprit};
ghost use Rattle.text.specs.Lent.{tape_of, SameOut};
ghost use Rattle.listing_line.specs.Line.{tabbed};
ghost use Rattle.listing_reports.specs.Tail.{report_word, end_line, refused_line};
ghost use Rattle.listing_report.specs.Written.{ReportWrote};

use listing_line::field::{put_number, put_text};
use text::write::Tape;

// The first three fields of a report: the word, the step and the rule.
fn put_report_head(tape: &mut Tape, step: u64, rule: u64)
    ensures wrote { Wrote (tape_of tape.old) (tabbed (report_word ∷ decimal step ∷ decimal rule ∷ [])) (tape_of tape.new) }
    ensures same { SameOut tape.old tape.new }
{
    put_text(tape, b"report", 9);
    put_number(tape, step, 9);
    put_number(tape, rule, 9);
}

// The line of a report.
pub fn put_report(tape: &mut Tape, step: u64, rule: u64, culprit: i64)
    requires { Culprit culprit }
    ensures wrote { ReportWrote step rule culprit (tape_of tape.old) (tape_of tape.new) }
    ensures same { SameOut tape.old tape.new }
{
    put_report_head(tape, step, rule);
    tape.put_signed(culprit);
    tape.put_byte(10);
}

// The last line, with the count of reports.
pub fn put_end(tape: &mut Tape, count: u64)
    ensures wrote { Wrote (tape_of tape.old) (end_line count) (tape_of tape.new) }
    ensures same { SameOut tape.old tape.new }
{
    put_text(tape, b"end", 9);
    put_number(tape, count, 10);
}

// The one line of a refused book: the refusal's number and its line.
pub fn put_refused(tape: &mut Tape, number: u64, line: u64)
    ensures wrote { Wrote (tape_of tape.old) (refused_line number line) (tape_of tape.new) }
    ensures same { SameOut tape.old tape.new }
{
    put_text(tape, b"refused", 9);
    put_number(tape, number, 9);
    put_number(tape, line, 10);
}
