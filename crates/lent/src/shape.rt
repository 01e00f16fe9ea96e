// Document 01, refusal 2, of a lent monitor: each entry is tested against its node.
ghost use Rattle.std.specs.Prelude.{◌≡◌, true, false, ◌+◌, ◌*◌, ◌≤◌, ◌<◌};
ghost use Rattle.node_step.specs.Lists.{entries_of};
ghost use Rattle.lent.specs.Shape.{is_minus_one, from_minus_one, window_kept, blameless_fits, joined_fits, owed_fits, entry_fits, row_fits, shaped_from};
ghost use Rattle.lent.specs.Lent.{Spanned, rows_fit};
ghost use Rattle.lent.specs.Lists.{lent_monitor};

use crate::Frame;
use monitor::node::{MonNode, Rows};
use node_step::state::{Entries, MonState};
use terms::form::{AND, DELAYED, OBLIGATION, OR, RANGE};

// An open window has from 1 to the bound steps left.
fn is_window(b: u64, st: MonState) -> bool
    ensures { result ≡ window_kept b st }
{
    !st.held || st.failed || 1 <= st.remaining && st.remaining <= b
}

// Whether an entry, with the form and the bound that the monitor remembers, fits its node.
fn fits_node(node: MonNode, form: u64, bound: u64, st: MonState) -> bool
    ensures { result ≡ entry_fits node form bound st }
{
    match node {
        MonNode::RangeCheck { .. } => form == RANGE && st.culprit == -1,
        MonNode::DelayedCheck { .. } => form == DELAYED && st.culprit == -1,
        MonNode::Obligation { bound: b, .. } => {
            form == OBLIGATION && bound == b && -1 <= st.culprit && is_window(b, st)
        }
        MonNode::And => form == AND && -1 <= st.culprit,
        MonNode::Or => form == OR && -1 <= st.culprit,
    }
}

fn fits_row(row: Option<MonNode>, form: u64, bound: u64, st: MonState) -> bool
    ensures { result ≡ row_fits row form bound st }
{
    row.is_some_and(|node| fits_node(node, form, bound, st))
}

impl Frame<'_> {
    // Whether the entries fit the nodes.
    fn is_shaped(&self, rows: &Rows, entries: &Entries) -> bool
        requires { Spanned rows.now.nodes.now rows.now.first self.now.forms.now self.now.bounds.now (entries_of entries.now) rows.now.count }
        ensures { result ≡ shaped_from rows.now.nodes.now rows.now.first self.now.forms.now self.now.bounds.now (entries_of entries.now) 0 rows.now.count }
    {
        for k in 0..rows.count {
            if !fits_row(rows.at(k), self.forms[k], self.bounds[k], entries.load(k)) {
                return false;
            }
        }
        true
    }

    // Whether the monitor has as many nodes as the rule, and an entry that fits each of its rows.
    pub(crate) fn is_fit(&self, rows: &Rows, entries: &Entries) -> bool
        requires { Spanned rows.now.nodes.now rows.now.first self.now.forms.now self.now.bounds.now (entries_of entries.now) rows.now.count }
        ensures { result ≡ rows_fit rows.now.nodes.now rows.now.first rows.now.count (lent_monitor self.now (entries_of entries.now)) }
    {
        self.size == rows.count && self.is_shaped(rows, entries)
    }
}
