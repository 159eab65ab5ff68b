//! Where the values come from that an event leaves: the table of opcodes once more, its changes from the last to the first.

ghost use Rattle.std.specs.Prelude.{◌≡◌, ◌≤◌, ◌∷◌, []};
ghost use Rattle.ga_ports.specs.Address.{IsTargetInRange};
ghost use Rattle.ga_node.specs.Record.{record_of_node};
ghost use Rattle.ga_node.specs.Table.{next_action_of_node};
ghost use Rattle.ga_event.specs.declared.flow.part.NodePart.TheVariants.{P};
ghost use Rattle.ga_event.specs.Flow.{CopiedFromPart, From, SetI, SetP, ReturnToFirstSlot, IsNodePartInRange, deciding_test_or_target, deciding_target, flow_changes_by_test_or_target, fetch_flow_changes, execute_flow_changes, multiply_flow_changes, send_flow_changes, take_flow_changes, flow_by_test_or_target, flow_of_own_event, flow_after_send, flow_after_take, flow_of_stored_flow, ComputesNothingFromOutsideWord, IsPartInRangeOrOutsideWord};
ghost use Rattle.ga_event.specs.inner.{trace_of_traced_part, At, trace_before_changes, trace_before_read, trace_before_write, trace_before_count_down, IsValidOriginTrace};

use super::sought::TracedPart;
use super::{DecidingTestOrTarget, NodePart, ValueFlow, from_one, from_three, from_two};
use ga_node::{NextAction, Node, NodePlace, Wait};
use ga_ports::{AddressTarget, classify_address};
use ga_slots::{Op, opcode};
use ga_word::Word18;

// The slot that comes next, and the instruction word.
#[tactic(auto, unfolding(ga_node::specs::Record::record_of_node))]
fn slot_of(node: &Node) -> u8
    ensures value { result ≡ (record_of_node node.now).slot }
    ensures in_range { result ≤ 4 }
{
    node.get(NodePlace::Slot) as u8
}

#[tactic(auto, unfolding(ga_node::specs::Record::record_of_node))]
fn i_of(node: &Node) -> Word18
    ensures { result ≡ (record_of_node node.now).i }
{
    Word18::from_low_bits(node.get(NodePlace::I))
}

/// What comes next in a node that runs.
pub fn next_action_of_running_node(node: &Node) -> NextAction
    ensures { result ≡ next_action_of_node (record_of_node node.now) }
{
    let slot = slot_of(node);
    if slot == 4 {
        return NextAction::Fetch;
    }
    NextAction::Run(opcode(i_of(node), slot))
}

// What decides the next event besides its opcode.
#[tactic(auto, unfolding(ga_node::specs::Record::record_of_node))]
fn choice_of(node: &Node, due: NextAction) -> DecidingTestOrTarget
    ensures value { result ≡ deciding_test_or_target due (record_of_node node.now) }
    ensures in_range { IsTargetInRange (deciding_target result) }
{
    match due {
        NextAction::Fetch => DecidingTestOrTarget::TargetChoice(classify_address(node.get(
            NodePlace::P,
        ))),
        NextAction::Run(op) => choice_by(node, op),
    }
}

// What decides an opcode that comes next, besides the opcode itself.
#[tactic(auto, unfolding(ga_node::specs::Record::record_of_node))]
fn choice_by(node: &Node, op: Op) -> DecidingTestOrTarget
    ensures value { result ≡ deciding_test_or_target (NextAction.Run op) (record_of_node node.now) }
    ensures in_range { IsTargetInRange (deciding_target result) }
{
    match op {
        Op::Unext | Op::Next => DecidingTestOrTarget::TestResult(node.word_of_return_stack(0) == 0),
        Op::If => DecidingTestOrTarget::TestResult(node.word_of_data_stack(0) == 0),
        Op::MinusIf => DecidingTestOrTarget::TestResult(node.word_of_data_stack(0) / 131072 == 0),
        Op::Plus => DecidingTestOrTarget::TestResult(node.get(NodePlace::P) / 512 % 2 == 1),
        Op::FetchP | Op::StoreP => DecidingTestOrTarget::TargetChoice(classify_address(node.get(
            NodePlace::P,
        ))),
        Op::FetchPlus | Op::Fetch | Op::StorePlus | Op::Store => DecidingTestOrTarget::TargetChoice(
            classify_address(node.get(NodePlace::A)),
        ),
        Op::FetchB | Op::StoreB => DecidingTestOrTarget::TargetChoice(classify_address(node.get(
            NodePlace::B,
        ))),
        _ => DecidingTestOrTarget::Plain,
    }
}

// A part followed back over a word read at the address and pushed, where `later` is followed back over what came after it.
fn before_read(choice: DecidingTestOrTarget, part: NodePart, later: TracedPart) -> TracedPart
    requires choice { IsTargetInRange (deciding_target choice) }
    requires part { IsNodePartInRange part }
    requires known { IsValidOriginTrace (trace_of_traced_part later) }
    ensures value { trace_of_traced_part result ≡ trace_before_read (deciding_target choice) part (trace_of_traced_part later) }
    ensures known { IsValidOriginTrace (trace_of_traced_part result) }
{
    match choice.target() {
        AddressTarget::Ram(k) => later.push_data(ValueFlow::CopiedFromPart(NodePart::Ram(k))),
        AddressTarget::Rom(k) => later.push_data(ValueFlow::CopiedFromPart(NodePart::Rom(k))),
        AddressTarget::Io => later.push_data(ValueFlow::CopiedFromPart(NodePart::OutsideWord)),
        AddressTarget::Ports(_) => TracedPart::At(part).set_wait(),
        AddressTarget::Bad => TracedPart::At(part).set_stop(),
    }
}

// A part followed back over T written at the address, where `later` is followed back over what came after it.
fn before_write(choice: DecidingTestOrTarget, part: NodePart, later: TracedPart) -> TracedPart
    requires choice { IsTargetInRange (deciding_target choice) }
    requires part { IsNodePartInRange part }
    requires known { IsValidOriginTrace (trace_of_traced_part later) }
    ensures value { trace_of_traced_part result ≡ trace_before_write (deciding_target choice) part (trace_of_traced_part later) }
    ensures known { IsValidOriginTrace (trace_of_traced_part result) }
{
    match choice.target() {
        AddressTarget::Ram(k) => later.set(
            NodePart::Ram(k),
            ValueFlow::CopiedFromPart(NodePart::T),
        ),
        AddressTarget::Rom(_) => later,
        AddressTarget::Io => later.set(NodePart::Io, ValueFlow::CopiedFromPart(NodePart::T)),
        AddressTarget::Ports(sides) => {
            if sides.only_side().is_some() {
                TracedPart::At(part).set_wait()
            } else {
                TracedPart::At(part).set_stop()
            }
        }
        AddressTarget::Bad => TracedPart::At(part).set_stop(),
    }
}

// A part followed back over an instruction word fetched from the source.
fn before_word(part: NodePart, source: NodePart) -> TracedPart
    requires part { IsNodePartInRange part }
    requires source { IsPartInRangeOrOutsideWord source }
    ensures value { trace_of_traced_part result ≡ trace_before_changes (SetI (CopiedFromPart source) ∷ SetP (From (P ∷ [])) ∷ ReturnToFirstSlot ∷ []) (At part) }
    ensures known { IsValidOriginTrace (trace_of_traced_part result) }
{
    TracedPart::At(part)
        .start_again()
        .advance(NodePart::P)
        .set(NodePart::I, ValueFlow::CopiedFromPart(source))
}

// A part followed back over a fetch.
fn before_fetch(choice: DecidingTestOrTarget, part: NodePart) -> TracedPart
    requires choice { IsTargetInRange (deciding_target choice) }
    requires part { IsNodePartInRange part }
    ensures value { trace_of_traced_part result ≡ trace_before_changes (fetch_flow_changes (deciding_target choice)) (At part) }
    ensures known { IsValidOriginTrace (trace_of_traced_part result) }
{
    match choice.target() {
        AddressTarget::Ram(k) => before_word(part, NodePart::Ram(k)),
        AddressTarget::Rom(k) => before_word(part, NodePart::Rom(k)),
        AddressTarget::Io => before_word(part, NodePart::OutsideWord),
        AddressTarget::Ports(_) => TracedPart::At(part).set_wait(),
        AddressTarget::Bad => TracedPart::At(part).set_stop(),
    }
}

// A part followed back over `ex`.
fn before_execute(at: TracedPart) -> TracedPart
    requires { IsValidOriginTrace (trace_of_traced_part at) }
    ensures value { trace_of_traced_part result ≡ trace_before_changes execute_flow_changes (trace_of_traced_part at) }
    ensures known { IsValidOriginTrace (trace_of_traced_part result) }
{
    at.skip()
        .set(NodePart::R, ValueFlow::CopiedFromPart(NodePart::P))
        .set(NodePart::P, from_one(NodePart::R))
}

// A part followed back over `+*`.
fn before_multiply(at: TracedPart) -> TracedPart
    requires { IsValidOriginTrace (trace_of_traced_part at) }
    ensures value { trace_of_traced_part result ≡ trace_before_changes multiply_flow_changes (trace_of_traced_part at) }
    ensures known { IsValidOriginTrace (trace_of_traced_part result) }
{
    at.go_on()
        .set(
            NodePart::T,
            from_three(NodePart::T, NodePart::S, NodePart::A),
        )
        .set(
            NodePart::A,
            from_three(NodePart::T, NodePart::S, NodePart::A),
        )
}

// A part followed back over the writer's half of a transfer.
fn before_send(part: NodePart) -> TracedPart
    requires { IsNodePartInRange part }
    ensures value { trace_of_traced_part result ≡ trace_before_changes send_flow_changes (At part) }
    ensures known { IsValidOriginTrace (trace_of_traced_part result) }
{
    TracedPart::At(part).go_on().pop_data().set_wait()
}

// A part followed back over the reader's half of a transfer, of a node that waited for this.
fn before_take(wait: Wait, part: NodePart) -> TracedPart
    requires { IsNodePartInRange part }
    ensures value { trace_of_traced_part result ≡ trace_before_changes (take_flow_changes wait) (At part) }
    ensures known { IsValidOriginTrace (trace_of_traced_part result) }
{
    match wait {
        Wait::Nothing => TracedPart::At(part),
        Wait::Fetch(_) => TracedPart::At(part)
            .start_again()
            .set(
                NodePart::I,
                ValueFlow::CopiedFromPart(NodePart::OutsideWord),
            )
            .set_wait(),
        Wait::Read(_) => TracedPart::At(part)
            .go_on()
            .push_data(ValueFlow::CopiedFromPart(NodePart::OutsideWord))
            .set_wait(),
        Wait::Write(_) => TracedPart::At(part),
    }
}

// A part followed back over the opcode.
#[tactic(auto, using(crate::proofs::Following::read_found, crate::proofs::Following::write_found, crate::proofs::Following::count_found))]
fn before_op(op: Op, choice: DecidingTestOrTarget, part: NodePart) -> TracedPart
    requires choice { IsTargetInRange (deciding_target choice) }
    requires part { IsNodePartInRange part }
    ensures value { trace_of_traced_part result ≡ trace_before_changes (flow_changes_by_test_or_target (NextAction.Run op) choice) (At part) }
    ensures known { IsValidOriginTrace (trace_of_traced_part result) }
{
    let at = TracedPart::At(part);
    match op {
        Op::Return => at
            .skip()
            .pop_return()
            .set(NodePart::P, from_one(NodePart::R)),
        Op::Execute => before_execute(at),
        Op::Jump => at.jump(),
        Op::Call => at
            .jump()
            .push_return(ValueFlow::CopiedFromPart(NodePart::P)),
        Op::Unext => before_count(
            choice.holds(),
            at.go_on(),
            TracedPart::At(part).start_again(),
        ),
        Op::Next => before_count(choice.holds(), at.skip(), TracedPart::At(part).jump()),
        Op::If => at.jump_where(choice.holds()),
        Op::MinusIf => at.jump_where(choice.holds()),
        Op::FetchP => before_read(choice, part, at.go_on().advance(NodePart::P)),
        Op::FetchPlus => before_read(choice, part, at.go_on().advance(NodePart::A)),
        Op::FetchB => before_read(choice, part, at.go_on()),
        Op::Fetch => before_read(choice, part, at.go_on()),
        Op::StoreP => before_write(choice, part, at.go_on().advance(NodePart::P).pop_data()),
        Op::StorePlus => before_write(choice, part, at.go_on().advance(NodePart::A).pop_data()),
        Op::StoreB => before_write(choice, part, at.go_on().pop_data()),
        Op::Store => before_write(choice, part, at.go_on().pop_data()),
        Op::MultiplyStep => before_multiply(at),
        Op::TwoStar => at.go_on().set(NodePart::T, from_one(NodePart::T)),
        Op::TwoSlash => at.go_on().set(NodePart::T, from_one(NodePart::T)),
        Op::Invert => at.go_on().set(NodePart::T, from_one(NodePart::T)),
        Op::Plus => before_plus(choice, at),
        Op::And => at.go_on().pop_to(from_two(NodePart::T, NodePart::S)),
        Op::Or => at.go_on().pop_to(from_two(NodePart::T, NodePart::S)),
        Op::Drop => at.go_on().pop_data(),
        Op::Dup => at.go_on().push_data(ValueFlow::CopiedFromPart(NodePart::T)),
        Op::Pop => at
            .go_on()
            .pop_return()
            .push_data(ValueFlow::CopiedFromPart(NodePart::R)),
        Op::Over => at.go_on().push_data(ValueFlow::CopiedFromPart(NodePart::S)),
        Op::A => at.go_on().push_data(ValueFlow::CopiedFromPart(NodePart::A)),
        Op::Nop => at.go_on(),
        Op::Push => at
            .go_on()
            .pop_data()
            .push_return(ValueFlow::CopiedFromPart(NodePart::T)),
        Op::BStore => at
            .go_on()
            .pop_data()
            .set(NodePart::B, from_one(NodePart::T)),
        Op::AStore => at
            .go_on()
            .pop_data()
            .set(NodePart::A, ValueFlow::CopiedFromPart(NodePart::T)),
    }
}

// A part followed back over R popped, where it had ended, or else counted down; what came after each is followed back already.
fn before_count(ends: bool, last: TracedPart, again: TracedPart) -> TracedPart
    requires last { IsValidOriginTrace (trace_of_traced_part last) }
    requires again { IsValidOriginTrace (trace_of_traced_part again) }
    ensures value { trace_of_traced_part result ≡ trace_before_count_down ends (trace_of_traced_part last) (trace_of_traced_part again) }
    ensures known { IsValidOriginTrace (trace_of_traced_part result) }
{
    if ends {
        last.pop_return()
    } else {
        again.count_down()
    }
}

// A part followed back over `+`.
fn before_plus(choice: DecidingTestOrTarget, at: TracedPart) -> TracedPart
    requires { IsValidOriginTrace (trace_of_traced_part at) }
    ensures value { trace_of_traced_part result ≡ trace_before_changes (flow_changes_by_test_or_target (NextAction.Run Op.Plus) choice) (trace_of_traced_part at) }
    ensures known { IsValidOriginTrace (trace_of_traced_part result) }
{
    if choice.holds() {
        at.go_on()
            .pop_to(from_three(NodePart::T, NodePart::S, NodePart::Carry))
            .set(
                NodePart::Carry,
                from_three(NodePart::T, NodePart::S, NodePart::Carry),
            )
    } else {
        at.go_on().pop_to(from_two(NodePart::T, NodePart::S))
    }
}

// A part followed back over what comes next in its node.
fn before_due(due: NextAction, choice: DecidingTestOrTarget, part: NodePart) -> TracedPart
    requires choice { IsTargetInRange (deciding_target choice) }
    requires part { IsNodePartInRange part }
    ensures value { trace_of_traced_part result ≡ trace_before_changes (flow_changes_by_test_or_target due choice) (At part) }
    ensures known { IsValidOriginTrace (trace_of_traced_part result) }
{
    match due {
        NextAction::Fetch => before_fetch(choice, part),
        NextAction::Run(op) => before_op(op, choice, part),
    }
}

/// Where the value of a part comes from after the node's next event of its own, if it makes one (DB001, opcodes): from which
/// parts of the node before. In two nodes in which the same is decided, as the opcode, its test and what its address names, and
/// which have the same values in these parts, the event leaves the same value ([`crate::laws::flows`]).
pub fn flow_of_own_event(node: &Node, part: NodePart) -> ValueFlow
    requires { IsNodePartInRange part }
    ensures value { flow_of_stored_flow result ≡ flow_of_own_event (record_of_node node.now) part }
    ensures sources { ComputesNothingFromOutsideWord (flow_of_stored_flow result) }
{
    let due = next_action_of_running_node(node);
    flow_by_test_or_target(due, choice_of(node, due), part)
}

/// Where the value of a part comes from after the next event of its node, where this decides it: by the opcode and the choice
/// alone, whatever the node's other values are.
pub fn flow_by_test_or_target(
    due: NextAction,
    choice: DecidingTestOrTarget,
    part: NodePart,
) -> ValueFlow
    requires choice { IsTargetInRange (deciding_target choice) }
    requires part { IsNodePartInRange part }
    ensures value { flow_of_stored_flow result ≡ flow_by_test_or_target due choice part }
    ensures sources { ComputesNothingFromOutsideWord (flow_of_stored_flow result) }
{
    before_due(due, choice, part).settle()
}

/// Where the value of a part comes from after the writer's half of a transfer.
pub fn flow_after_send(part: NodePart) -> ValueFlow
    requires { IsNodePartInRange part }
    ensures value { flow_of_stored_flow result ≡ flow_after_send part }
    ensures sources { ComputesNothingFromOutsideWord (flow_of_stored_flow result) }
{
    before_send(part).settle()
}

/// Where the value of a part comes from after the reader's half of a transfer, of a node that waits for this.
pub fn flow_after_take(wait: Wait, part: NodePart) -> ValueFlow
    requires { IsNodePartInRange part }
    ensures value { flow_of_stored_flow result ≡ flow_after_take wait part }
    ensures sources { ComputesNothingFromOutsideWord (flow_of_stored_flow result) }
{
    before_take(wait, part).settle()
}
