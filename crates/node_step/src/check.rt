// One step of a check, on its entry in the monitor's memory: no more is read or stored than the check's form needs.
ghost use Rattle.std.specs.Prelude.{◌≡◌};
ghost use Rattle.node_step.specs.Lists.{memory_of, SameLists};
ghost use Rattle.node_step.specs.Check.{Named, SignalSays, Steppable, Checkable, CheckStepped, DelayedNow};
ghost use Rattle.node_step.specs.Check.{TriggerDue, Openable, Opened, Tickable, Ticked, AtOnce, DoneAtOnce};

use crate::state::{Memory, MonState};
use formula::table::FormulaTable;
use monitor::node::{MonNode, SignalExpr};
use monitor::range::AnchorRange;

// A step and its truths, and the formula table that its signals stand in: what stays the same during one step of a monitor.
#[derive(Clone, Copy)]
pub struct Moment<'a> {
    pub table: &'a FormulaTable<'a>,
    pub step: u64,
    pub truths: u64,
}

impl Moment<'_> {
    // The truth of a signal.
    fn truth_of(&self, e: SignalExpr) -> bool
        requires { Named self.now.table.now.ops.now self.now.table.now.nums.now e }
        ensures { SignalSays self.now.table.now.ops.now self.now.table.now.nums.now e self.now.truths result }
    {
        match e {
            SignalExpr::True => true,
            SignalExpr::At(p) => self.table.value_at(p, self.truths).value,
        }
    }

    fn step_range(
        &self,
        expr: SignalExpr,
        range: AnchorRange,
        memory: &mut Memory,
        k: usize,
    ) -> bool
        requires { Checkable self.now.table.now.ops.now self.now.table.now.nums.now (MonNode.RangeCheck expr range)
            (memory_of memory.old) k self.now.step }
        ensures stepped { CheckStepped self.now.table.now.ops.now self.now.table.now.nums.now (MonNode.RangeCheck expr range)
            (memory_of memory.old) k self.now.step self.now.truths
            (memory_of memory.new) result }
        ensures same { SameLists memory.old memory.new }
    {
        if range.contains(self.step) && !self.truth_of(expr) {
            memory.failed[k] = true;
            return true;
        }
        false
    }

    // Whether a delayed check is failing now: it has failed, or its consequent is missing.
    fn delayed_now(
        &self,
        antecedent: SignalExpr,
        consequent: SignalExpr,
        range: AnchorRange,
        st: MonState,
    ) -> bool
        requires { Steppable self.now.table.now.ops.now self.now.table.now.nums.now (MonNode.DelayedCheck antecedent consequent range)
            st self.now.step }
        ensures { DelayedNow self.now.table.now.ops.now self.now.table.now.nums.now consequent range st self.now.step self.now.truths result }
    {
        st.failed || range.contains(self.step) && st.held && !self.truth_of(consequent)
    }

    fn step_delayed(
        &self,
        antecedent: SignalExpr,
        consequent: SignalExpr,
        range: AnchorRange,
        memory: &mut Memory,
        k: usize,
    ) -> bool
        requires { Checkable self.now.table.now.ops.now self.now.table.now.nums.now (MonNode.DelayedCheck antecedent consequent range)
            (memory_of memory.old) k self.now.step }
        ensures stepped { CheckStepped self.now.table.now.ops.now self.now.table.now.nums.now (MonNode.DelayedCheck antecedent consequent range)
            (memory_of memory.old) k self.now.step self.now.truths
            (memory_of memory.new) result }
        ensures same { SameLists memory.old memory.new }
    {
        let st = memory.load(k);
        let failing = self.delayed_now(antecedent, consequent, range, st);
        let remembered = self.truth_of(antecedent);
        memory.held[k] = remembered;
        memory.failed[k] = failing;
        failing
    }

    // Whether an obligation's trigger holds at a step of its range.
    fn is_due(&self, trigger: SignalExpr, range: AnchorRange) -> bool
        requires { Named self.now.table.now.ops.now self.now.table.now.nums.now trigger }
        ensures { TriggerDue self.now.table.now.ops.now self.now.table.now.nums.now trigger range self.now.step self.now.truths result }
    {
        range.contains(self.step) && self.truth_of(trigger)
    }

    // A window opens at a trigger when none is open; the answer is whether one is open now.
    fn open_window(
        &self,
        bound: u64,
        trigger: SignalExpr,
        range: AnchorRange,
        memory: &mut Memory,
        k: usize,
    ) -> bool
        requires { Openable self.now.table.now.ops.now self.now.table.now.nums.now trigger (memory_of memory.old) k self.now.step }
        ensures stepped { Opened self.now.table.now.ops.now self.now.table.now.nums.now bound trigger range
            (memory_of memory.old) k self.now.step self.now.truths
            (memory_of memory.new) result }
        ensures same { SameLists memory.old memory.new }
    {
        if memory.held[k] {
            return true;
        }
        if self.is_due(trigger, range) {
            memory.held[k] = true;
            memory.remaining[k] = bound;
            // `as`: the number fits, and a `TryFrom` would have an error that cannot be
            memory.culprits[k] = self.step as i64;
            return true;
        }
        false
    }

    // An open window is closed by its body; without it one is taken from what remains, and at zero it has failed.
    fn tick(&self, body: SignalExpr, memory: &mut Memory, k: usize) -> bool
        requires { Tickable self.now.table.now.ops.now self.now.table.now.nums.now body (memory_of memory.old) k }
        ensures stepped { Ticked self.now.table.now.ops.now self.now.table.now.nums.now body
            (memory_of memory.old) k self.now.truths
            (memory_of memory.new) result }
        ensures same { SameLists memory.old memory.new }
    {
        if self.truth_of(body) {
            memory.held[k] = false;
            return false;
        }
        let left = memory.remaining[k] - 1;
        let spent = left == 0;
        memory.remaining[k] = left;
        memory.failed[k] = spent;
        spent
    }

    // Bound 0: the body has to hold at the trigger's own step.
    fn step_at_once(
        &self,
        trigger: SignalExpr,
        body: SignalExpr,
        range: AnchorRange,
        memory: &mut Memory,
        k: usize,
    ) -> bool
        requires { AtOnce self.now.table.now.ops.now self.now.table.now.nums.now trigger body (memory_of memory.old) k self.now.step }
        ensures stepped { DoneAtOnce self.now.table.now.ops.now self.now.table.now.nums.now trigger body range
            (memory_of memory.old) k self.now.step self.now.truths
            (memory_of memory.new) result }
        ensures same { SameLists memory.old memory.new }
    {
        if self.is_due(trigger, range) && !self.truth_of(body) {
            memory.failed[k] = true;
            memory.culprits[k] = self.step as i64;
            return true;
        }
        false
    }

    fn step_obligation(
        &self,
        bound: u64,
        trigger: SignalExpr,
        body: SignalExpr,
        range: AnchorRange,
        memory: &mut Memory,
        k: usize,
    ) -> bool
        requires { Checkable self.now.table.now.ops.now self.now.table.now.nums.now (MonNode.Obligation bound trigger body range)
            (memory_of memory.old) k self.now.step }
        ensures stepped { CheckStepped self.now.table.now.ops.now self.now.table.now.nums.now (MonNode.Obligation bound trigger body range)
            (memory_of memory.old) k self.now.step self.now.truths
            (memory_of memory.new) result }
        ensures same { SameLists memory.old memory.new }
    {
        if memory.failed[k] {
            return true;
        }
        if bound == 0 {
            return self.step_at_once(trigger, body, range, memory, k);
        }
        if self.open_window(bound, trigger, range, memory, k) {
            return self.tick(body, memory, k);
        }
        false
    }

    // One step of any check; the answer is whether it is failing now.
    pub fn step_check(&self, node: MonNode, memory: &mut Memory, k: usize) -> bool
        requires { Checkable self.now.table.now.ops.now self.now.table.now.nums.now node (memory_of memory.old) k self.now.step }
        ensures stepped { CheckStepped self.now.table.now.ops.now self.now.table.now.nums.now node
            (memory_of memory.old) k self.now.step self.now.truths
            (memory_of memory.new) result }
        ensures same { SameLists memory.old memory.new }
    {
        match node {
            MonNode::RangeCheck { expr, range } => self.step_range(expr, range, memory, k),
            MonNode::DelayedCheck {
                antecedent,
                consequent,
                range,
            } => self.step_delayed(antecedent, consequent, range, memory, k),
            MonNode::Obligation {
                bound,
                trigger,
                body,
                range,
            } => self.step_obligation(bound, trigger, body, range, memory, k),
            MonNode::And | MonNode::Or => false,
        }
    }
}
