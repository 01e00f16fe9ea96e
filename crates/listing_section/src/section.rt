// The lines of one rule: `rule`, then `node` where it compiles, then `live`, then `owe`.
ghost use Rattle.text.specs.Lent.{tape_of, SameOut};
ghost use Rattle.std.specs.Prelude.{◌≡◌, not, eqb};
ghost use Rattle.listing_section.specs.Section.{Split, SplitWrote, Owing, OwingWrote, Readied, NodesPut, RulePut};

use formula::table::{FormulaTable, Span};
use listing_line::rule::{Compiled, put_rule};
use listing_live::live::put_live;
use listing_live::owe::put_owes;
use listing_nodes::put_nodes;
use monitor::table::{Part, Tables};
use result::Refusal;
use split::parts::{Parts, split};
use terms::kind::PROPERTY;
use terms::limit::{OWED_ROOM, SKELETON_ROOM};
use text::write::Tape;

// The `owe` lines of a split's answer.
fn put_owing(
    tape: &mut Tape,
    table: &FormulaTable,
    span: Span,
    assumed: bool,
    answer: Result<Option<Parts>, Refusal>,
    owed: &[u64],
)
    requires { Owing table.now.ops.now table.now.nums.now span.first span.count assumed answer owed.now }
    ensures wrote { OwingWrote table.now.ops.now table.now.nums.now span.first span.count assumed (tape_of tape.old) (tape_of tape.new) }
    ensures same { SameOut tape.old tape.new }
{
    match answer {
        Ok(Some(parts)) => put_owes(tape, table, owed, parts.owed),
        Ok(None) => {}
        Err(_) => {}
    }
}

// The `live` line and the `owe` lines of a rule.
pub(crate) fn put_split(tape: &mut Tape, table: &FormulaTable, span: Span, assumed: bool)
    requires { Split table.now.ops.now table.now.nums.now span.first span.count }
    ensures wrote { SplitWrote table.now.ops.now table.now.nums.now span.first span.count assumed (tape_of tape.old) (tape_of tape.new) }
    ensures same { SameOut tape.old tape.new }
{
    let mut skeleton: [u64; SKELETON_ROOM] = [0; SKELETON_ROOM];
    let mut owed: [u64; OWED_ROOM] = [0; OWED_ROOM];
    let answer = split(table, span, assumed, &mut skeleton, &mut owed);
    put_live(tape, table, answer, &skeleton);
    put_owing(tape, table, span, assumed, answer, &owed);
}

// The `node` lines, where the rule compiles.
fn put_compiled(
    tape: &mut Tape,
    tables: &Tables,
    label: &[u8],
    kind: u8,
    part: Part,
    c: Result<Compiled, u64>,
)
    requires { Readied tables.now.formulas.ops.now tables.now.formulas.nums.now tables.now.nodes.now label.now kind part.first part.count part.nfirst
        part.ncount c }
    ensures wrote { NodesPut tables.now.formulas.ops.now tables.now.formulas.nums.now tables.now.nodes.now label.now kind part.first part.count
        part.nfirst part.ncount c
        (tape_of tape.old) (tape_of tape.new) }
    ensures same { SameOut tape.old tape.new }
{
    match c {
        Ok(_) => put_nodes(tape, tables, part),
        Err(_) => {}
    }
}

// A kind that is no property's is an assumption's.
fn is_assumption(kind: u8) -> bool
    ensures { result ≡ not (eqb kind 0) }
{
    kind != PROPERTY
}

// All lines of a rule.
pub fn put_section(
    tape: &mut Tape,
    tables: &Tables,
    label: &[u8],
    number: u64,
    kind: u8,
    part: Part,
    c: Result<Compiled, u64>,
)
    requires { Readied tables.now.formulas.ops.now tables.now.formulas.nums.now tables.now.nodes.now label.now kind part.first part.count part.nfirst
        part.ncount c }
    ensures wrote { RulePut tables.now.formulas.ops.now tables.now.formulas.nums.now tables.now.nodes.now label.now number kind part.first part.count
        part.nfirst part.ncount c
        (tape_of tape.old) (tape_of tape.new) }
    ensures same { SameOut tape.old tape.new }
{
    put_rule(tape, number, label, kind, c);
    put_compiled(tape, tables, label, kind, part, c);
    let assumed = is_assumption(kind);
    put_split(tape, &tables.formulas, part.formula(), assumed);
}
