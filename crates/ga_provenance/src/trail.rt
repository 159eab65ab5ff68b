//! A node that is followed back over its steps, with its tracked registers that address.

ghost use Rattle.std.specs.Prelude.{◌≡◌, ◌≤◌, ◌+◌, true, IfSome};
ghost use Rattle.ga_event.specs.Flow.{IsNodePartInRange};
ghost use Rattle.ga_provenance.specs.Origins.{origin_of_value};
ghost use Rattle.ga_provenance.specs.inner.{AreRegistersAfterSteps, IsValueFollowedBack};

use crate::kept::{Registers, registers_at, registers_before, registers_in};
use crate::moving::{data_place, event_stores_outside_part, source_part_by_event};
use crate::value::PartValue;
use ga_event::NodePart;
use ga_grid::NodeId;
use ga_lab::{Lab, NodeWalk};
use std::marker::Model;

/// A value that was followed back, and A and B after its step.
#[derive(Clone, Copy, PartialEq, Eq, Debug)]
struct Followed {
    value: PartValue,
    registers: Registers,
}

// Follows a word of the data stack back over the steps that moved it within that stack, and A and B too if `along`. Any other
// value is returned as it is.
#[inline(always)]
fn follow_data(lab: &Lab, followed: Followed, along: bool) -> Followed
    requires part { IsNodePartInRange followed.value.part }
    requires held { along ≡ true → AreRegistersAfterSteps lab.now followed.value.node.number followed.value.step followed.registers }
    ensures same { origin_of_value lab.now result.value ≡ origin_of_value lab.now followed.value }
    ensures part { IsNodePartInRange result.value.part }
    ensures node { result.value.node ≡ followed.value.node }
    ensures within { result.value.step ≤ followed.value.step }
    ensures held { along ≡ true → AreRegistersAfterSteps lab.now followed.value.node.number result.value.step result.registers }
{
    let Followed {
        value,
        mut registers,
    } = followed;
    let NodePart::Data(mut place) = value.part else {
        return followed;
    };
    let PartValue { node, mut step, .. } = value;
    'telling: while step > 0 {
        let told = lab.made_event_of_step(node, step - 1);
        match data_place(&told, place) {
            Some(from) => place = from,
            None => break 'telling,
        }
        step -= 1;
        if along {
            registers = registers_before(lab, node, step, &told, registers);
        }
    }
    let part = NodePart::Data(place);
    let value = PartValue { node, step, part };
    Followed { value, registers }
}

// Follows a value back over the steps of its node that, as made, determine from where they moved it, and A and B too if
// `along`.
#[inline(always)]
fn follow(lab: &Lab, value: PartValue, along: bool, behind: Registers) -> Followed
    requires part { IsNodePartInRange value.part }
    requires held { along ≡ true → AreRegistersAfterSteps lab.now value.node.number value.step behind }
    ensures followed { IsValueFollowedBack lab.now value result.value }
    ensures held { along ≡ true → AreRegistersAfterSteps lab.now value.node.number result.value.step result.registers }
{
    let mut value = value;
    let mut registers = behind;
    'telling: while value.step > 0 {
        if let NodePart::Data(_) = value.part {
            let followed = follow_data(lab, Followed { value, registers }, along);
            value = followed.value;
            registers = followed.registers;
            if value.step == 0 {
                break 'telling;
            }
        }
        let PartValue { node, step, part } = value;
        let step = step - 1;
        let told = lab.made_event_of_step(node, step);
        match source_part_by_event(&told, part) {
            Some(part) => value = PartValue { node, step, part },
            None => return Followed { value, registers },
        }
        if along {
            registers = registers_before(lab, node, step, &told, registers);
        }
    }
    Followed { value, registers }
}

// A value of a cell as it was a step before, where the step ran a store by A or B that left it.
fn passed(lab: &Lab, followed: Followed) -> Option<Followed>
    requires part { IsNodePartInRange followed.value.part }
    requires held { AreRegistersAfterSteps lab.now followed.value.node.number followed.value.step followed.registers }
    ensures same { IfSome result (λ before. origin_of_value lab.now before.value ≡ origin_of_value lab.now followed.value) }
    ensures part { IfSome result (λ before. IsNodePartInRange before.value.part) }
    ensures node { IfSome result (λ before. before.value.node ≡ followed.value.node) }
    ensures step { IfSome result (λ before. before.value.step + 1 ≡ followed.value.step) }
    ensures held { IfSome result (λ before. AreRegistersAfterSteps lab.now before.value.node.number before.value.step before.registers) }
{
    let Followed { value, registers } = followed;
    let PartValue { node, step, part } = value;
    if step == 0 {
        return None;
    }
    let step = step - 1;
    let told = lab.made_event_of_step(node, step);
    let registers = registers_before(lab, node, step, &told, registers);
    if !event_stores_outside_part(&told, registers, part) {
        return None;
    }
    let value = PartValue { node, step, part };
    Some(Followed { value, registers })
}

// A value followed back along with A and B, and over the stores that left it.
#[inline(never)]
fn follow_on(lab: &Lab, value: PartValue, behind: Registers) -> Followed
    requires part { IsNodePartInRange value.part }
    requires held { AreRegistersAfterSteps lab.now value.node.number value.step behind }
    ensures followed { IsValueFollowedBack lab.now value result.value }
    ensures held { AreRegistersAfterSteps lab.now value.node.number result.value.step result.registers }
{
    let registers = behind;
    let mut followed = Followed { value, registers };
    'passing: while followed.value.step > 0 {
        followed = follow(lab, followed.value, true, followed.registers);
        match passed(lab, followed) {
            Some(before) => followed = before,
            None => return followed,
        }
    }
    followed
}

/// A walk of a node, and A and B after some of its steps, so that an address is known without walking the node back. A contract
/// sees the walk only.
#[derive(Drop)]
pub(crate) struct CachedWalk<'l> {
    walk: NodeWalk<'l>,
    // The number of steps after which A and B are known.
    step: u32,
    registers: Registers,
}

impl<'l> Model for CachedWalk<'l> {
    ghost use Rattle.ga_lab.specs.Machine.{NodeAtStep};
    ghost use Rattle.ga_provenance.specs.inner.{AreRegistersAfterSteps};

    ghost Value = { NodeAtStep };

    ghost view = { λ t. t.walk };

    ghost invariant = { λ t. AreRegistersAfterSteps t.walk.machine t.walk.node.number t.step t.registers };
}

impl<'l> CachedWalk<'l> {
    ghost use Rattle.std.specs.Prelude.{◌≡◌, ◌≤◌};
    ghost use Rattle.ga_event.specs.Told.{count_steps};
    ghost use Rattle.ga_lab.specs.Machine.{node_at_step};
    ghost use Rattle.ga_event.specs.Flow.{IsNodePartInRange};
    ghost use Rattle.ga_provenance.specs.inner.{HasMachineAllNodes, AreRegistersAfterSteps, IsValueFollowedBack, IsTrailNotPastStep};

    /// A trail from where a node is walked back to.
    pub fn new(lab: &'l Lab, node: NodeId, walk: NodeWalk<'l>) -> Self
        requires { walk ≡ node_at_step lab.now node walk.step }
        ensures walk { result ≡ walk.entry }
        ensures whole { HasMachineAllNodes lab.now }
    {
        let registers = registers_in(lab, node, &walk);
        let step = walk.step();
        CachedWalk {
            walk,
            step,
            registers,
        }
    }

    /// How far the node is walked back.
    pub fn step(&self) -> u32
        ensures value { result ≡ self.now.step }
        ensures within { result ≤ count_steps self.now.node.number self.now.machine.kept }
    {
        self.walk.step()
    }

    /// The walk.
    pub fn walk(&self) -> &NodeWalk<'l>
        ensures { result.now ≡ self.now }
    {
        &self.walk
    }

    /// Walks the node back to an earlier step.
    pub fn walk_back_to(&mut self, step: u32)
        requires { step ≤ self.old.step }
        ensures { self.new ≡ record self.old { step = step } }
    {
        self.walk.walk_back_to(step);
    }

    /// Follows a value back over the steps of the node that, as made, determine from where they moved it. If A and B are known
    /// after the value's step, they are then known at the returned value's step.
    pub fn trace_by_steps_as_made(&mut self, lab: &Lab, value: PartValue) -> PartValue
        requires part { IsNodePartInRange value.part }
        requires trail { self.old ≡ node_at_step lab.now value.node self.old.step }
        ensures followed { IsValueFollowedBack lab.now value result }
        ensures trail { self.new ≡ self.old }
    {
        if self.step == value.step {
            let followed = follow_on(lab, value, self.registers);
            self.step = followed.value.step;
            self.registers = followed.registers;
            followed.value
        } else {
            follow(lab, value, false, self.registers).value
        }
    }

    /// Stores A and B after `step` steps.
    pub fn store_walk_registers(&mut self, lab: &Lab, node: NodeId, step: u32, registers: Registers)
        requires trail { self.old ≡ node_at_step lab.now node self.old.step }
        requires held { AreRegistersAfterSteps lab.now node.number step registers }
        ensures { self.new ≡ self.old }
    {
        self.step = step;
        self.registers = registers;
    }

    /// A and B after `step` steps. Takes time linear in the number of steps between there and where they were known.
    pub fn registers(&mut self, lab: &Lab, node: NodeId, step: u32) -> Registers
        requires trail { IsTrailNotPastStep lab.now node self.old step }
        ensures held { AreRegistersAfterSteps lab.now node.number step result }
        ensures same { self.new ≡ self.old }
    {
        if self.step < step {
            self.registers = registers_in(lab, node, &self.walk);
            self.step = self.walk.step();
        }
        let registers = registers_at(lab, node, self.registers, self.step, step);
        self.step = step;
        self.registers = registers;
        registers
    }
}
