// Reading a book into a formula table that is lent as a slice of node structs. The book is read by the core, `reader::read::read_book`, into
// columns, and the nodes are stored in the table one by one. Callers with plain slices call `read_book` themselves.
#![tactic(auto)]

ghost use Rattle.node_table.specs.Node.{ops_of, nums_of};
ghost use Rattle.reader.specs.Answer.{Reads};
ghost use Rattle.reader.specs.Lists.{slots_in, SameSlots};
ghost use Rattle.table_read.specs.Filling.{Fills};
ghost use Rattle.table_read.specs.RuleList.{with_table};
ghost use Rattle.table_read.specs.Lists.{rules_in, SameRules};

use book::check::{Read, Refused};
use node_table::{Columns, FormulaNode, pack};
use reader::read::read_book;
use reader::tables::{BookTables, SlotTables};
use result::Refusal;
use terms::limit::BOOK_NODES;

// The lent rule list, a place for each rule.
#[derive(Drop)]
pub struct RuleTables<'a> {
    pub labels: &'a mut [u8],
    pub lens: &'a mut [usize],
    pub kinds: &'a mut [u8],
    pub firsts: &'a mut [usize],
    pub counts: &'a mut [usize],
}

// What was read, and the book's nodes in columns.
#[derive(Drop)]
pub struct Filling {
    pub read: Read,
    pub columns: Columns,
}

// Reads a book into a rule list, a slot list and columns, for a formula table of `len` nodes.
fn read_columns(
    len: usize,
    text: &[u8],
    rules: &mut RuleTables,
    slots: &mut SlotTables,
) -> Result<Filling, Refused>
    ensures fills { Fills len text.now (rules_in rules.old) (slots_in slots.old) result (rules_in rules.new) (slots_in slots.new) }
    ensures same_rules { SameRules rules.old rules.new }
    ensures same_slots { SameSlots slots.old slots.new }
{
    if len < BOOK_NODES {
        return Err(Refused {
            refusal: Refusal::Short,
            line: 0,
        });
    }
    let mut ops = [0u8; BOOK_NODES];
    let mut nums = [0u64; BOOK_NODES];
    let mut tables = BookTables {
        labels: rules.labels,
        lens: rules.lens,
        kinds: rules.kinds,
        firsts: rules.firsts,
        counts: rules.counts,
        ops: &mut ops,
        nums: &mut nums,
    };
    let read = read_book(text, &mut tables, slots)?;
    let columns = Columns {
        count: read.nodes,
        ops,
        nums,
    };
    Ok(Filling { read, columns })
}

// Reads a book: its rules into the rule list, its nodes into the table's front, its slots into the slot list.
pub fn read_table(
    text: &[u8],
    rules: &mut RuleTables,
    table: &mut [FormulaNode],
    slots: &mut SlotTables,
) -> Result<Read, Refused>
    ensures read { Reads text.now
        (with_table (rules_in rules.old) (ops_of table.old) (nums_of table.old)) (slots_in slots.old) result
        (with_table (rules_in rules.new) (ops_of table.new) (nums_of table.new)) (slots_in slots.new) }
    ensures same_rules { SameRules rules.old rules.new }
    ensures same_slots { SameSlots slots.old slots.new }
{
    let filling = read_columns(table.len(), text, rules, slots)?;
    pack(table, filling.columns);
    Ok(filling.read)
}
