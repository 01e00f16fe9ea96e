// Reading a book over a lent table of node structs, for callers that hold the table by value: it is lent for the call of `read_table`,
// and handed back.
#![tactic(auto)]

ghost use Rattle.node_table.specs.Node.{ops_of, nums_of};
ghost use Rattle.reader.specs.Answer.{Reads};
ghost use Rattle.reader.specs.Lists.{slots_in, SameSlots};
ghost use Rattle.table_read.specs.RuleList.{with_table};
ghost use Rattle.table_read.specs.Lists.{rules_in, SameRules};

use book::check::{Read, Refused};
use node_table::FormulaNode;
use reader::tables::SlotTables;
use table_read::{RuleTables, read_table};
use terms::limit::BOOK_NODES;

// The answer, and the table as reading leaves it.
#[derive(Drop)]
pub struct ReadOver {
    pub answer: Result<Read, Refused>,
    pub table: [FormulaNode; BOOK_NODES],
}

// Reads a book: its rules into the rule list, its nodes into the table's front, its slots into the slot list.
pub fn read_over(
    text: &[u8],
    rules: &mut RuleTables,
    mut table: [FormulaNode; BOOK_NODES],
    slots: &mut SlotTables,
) -> ReadOver
    ensures read { Reads text.now
        (with_table (rules_in rules.old) (ops_of table) (nums_of table)) (slots_in slots.old) result.answer
        (with_table (rules_in rules.new) (ops_of result.table) (nums_of result.table)) (slots_in slots.new) }
    ensures same_rules { SameRules rules.old rules.new }
    ensures same_slots { SameSlots slots.old slots.new }
{
    let answer = read_table(text, rules, &mut table, slots);
    ReadOver { answer, table }
}
