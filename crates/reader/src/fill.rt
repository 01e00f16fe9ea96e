// The filling pass over a book that is accepted: the rule list and the formula table, a line at a time.
ghost use Rattle.std.specs.Prelude.{◌≡◌, ◌+◌, ◌*◌, ◌≤◌, ◌<◌, length};
ghost use Rattle.reader.specs.Lists.{tables_in, SameTables};
ghost use Rattle.reader.specs.FillingPass.{placed, RuleRoom, RuleDone, NodeRoom, NodeDone, LineRoom, LinePut, Fillable, FilledTables};

use crate::tables::BookTables;
use line::line::{Content, read_line};
use line::text::{find, past, upto};
use terms::limit::LABEL_BYTES;

// The rules begun, the nodes written, and the nodes of the rule in hand.
#[derive(Clone, Copy, Debug, PartialEq, Eq)]
pub struct Tally {
    pub rules: usize,
    pub nodes: usize,
    pub own: usize,
}

// All of src into dst from a place on. Not by `copy_from_slice`: the library for C would need `memmove` from outside.
pub(crate) fn copy_in(dst: &mut [u8], at: usize, src: &[u8])
    requires { at + length src.now ≤ length dst.old }
    ensures { dst.new ≡ placed dst.old at src.now }
{
    for k in 0..src.len() {
        dst[at + k] = src[k];
    }
}

// A rule's head at its place of the rule list.
fn put_rule(tables: &mut BookTables, label: &[u8], kind: u8, f: Tally) -> Tally
    requires { RuleRoom label.now (tables_in tables.old) f }
    ensures put { RuleDone label.now kind (tables_in tables.old) f (tables_in tables.new) result }
    ensures same { SameTables tables.old tables.new }
{
    copy_in(tables.labels, LABEL_BYTES * f.rules, label);
    tables.lens[f.rules] = label.len();
    tables.kinds[f.rules] = kind;
    tables.firsts[f.rules] = f.nodes;
    tables.counts[f.rules] = 0;
    Tally {
        rules: f.rules + 1,
        own: 0,
        ..f
    }
}

// A node at its place of the formula table, counted in its rule.
fn put_node(tables: &mut BookTables, op: u8, num: u64, f: Tally) -> Tally
    requires { NodeRoom (tables_in tables.old) f }
    ensures put { NodeDone op num (tables_in tables.old) f (tables_in tables.new) result }
    ensures same { SameTables tables.old tables.new }
{
    tables.counts[f.rules - 1] = f.own + 1;
    tables.ops[f.nodes] = op;
    tables.nums[f.nodes] = num;
    Tally {
        nodes: f.nodes + 1,
        own: f.own + 1,
        ..f
    }
}

// One line.
fn put_line(line: &[u8], tables: &mut BookTables, f: Tally) -> Tally
    requires { LineRoom line.now (tables_in tables.old) f }
    ensures put { LinePut line.now (tables_in tables.old) f (tables_in tables.new) result }
    ensures same { SameTables tables.old tables.new }
{
    let Ok(content) = read_line(line) else {
        return f;
    };
    match content {
        Content::Rule { start, len, kind } => {
            let label = upto(past(line, start), len);
            put_rule(tables, label, u8::from(kind), f)
        }
        Content::Node { op, num } => put_node(tables, op, num, f),
        Content::Step { .. } => f,
        Content::States { .. } => f,
        Content::Slot { .. } => f,
    }
}

// All lines before the step lines, which begin at `head`.
pub(crate) fn fill(text: &[u8], head: usize, tables: &mut BookTables)
    requires { Fillable text.now head (tables_in tables.old) }
    ensures put { FilledTables text.now (tables_in tables.old) (tables_in tables.new) }
    ensures same { SameTables tables.old tables.new }
{
    let mut f = Tally {
        rules: 0,
        nodes: 0,
        own: 0,
    };
    let mut at: usize = 0;
    // a line is as long as its text says, so the loop moves by places
    while at < head {
        let rest = past(text, at);
        let n = find(rest, 10);
        let line = upto(rest, n);
        f = put_line(line, tables, f);
        at += n + 1;
    }
}
