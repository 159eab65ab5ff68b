//! A part followed back through the changes of an event.

use super::{NodePart, ValueFlow, from_none, from_one, from_three};

/// A part followed back through the changes of an event, the last of them first.
#[derive(Drop)]
pub(crate) enum TracedPart {
    /// The part's value is the one that this part has before the changes so far.
    At(NodePart),
    /// Where the part's value was found to come from.
    Found(ValueFlow),
}

impl TracedPart {
    ghost use Rattle.std.specs.Prelude.{◌≡◌, ◌∷◌, [], if◌then◌else◌};
    ghost use Rattle.ga_event.specs.Flow.{From, AdvanceSlot, SkipRestOfWord, ReturnToFirstSlot, SetWait, SetStop, jump_flow_changes, top_return_part, IsNodePartInRange, flow_of_stored_flow, ComputesNothingFromOutsideWord};
    ghost use Rattle.ga_event.specs.Flow as move;
    ghost use Rattle.ga_event.specs.inner.{trace_of_traced_part, trace_before_set, push_data, pop_data, push_return, pop_return, before, trace_before_changes, flow_of_trace, IsValidOriginTrace};

    /// The part followed back over a part that got a word of this flow.
    pub(crate) fn set(self, at: NodePart, flow: ValueFlow) -> TracedPart
        requires known { IsValidOriginTrace (trace_of_traced_part self) }
        requires sources { ComputesNothingFromOutsideWord (flow_of_stored_flow flow) }
        ensures value { trace_of_traced_part result ≡ trace_before_set at (flow_of_stored_flow flow) (trace_of_traced_part self) }
        ensures known { IsValidOriginTrace (trace_of_traced_part result) }
    {
        match self {
            TracedPart::At(part) => {
                if part.is_same_node_part(at) {
                    TracedPart::Found(flow)
                } else {
                    TracedPart::At(part)
                }
            }
            TracedPart::Found(found) => TracedPart::Found(found),
        }
    }

    /// The part followed back over a word of this flow pushed on the data stack.
    pub(crate) fn push_data(self, flow: ValueFlow) -> TracedPart
        requires known { IsValidOriginTrace (trace_of_traced_part self) }
        requires sources { ComputesNothingFromOutsideWord (flow_of_stored_flow flow) }
        ensures value { trace_of_traced_part result ≡ push_data (flow_of_stored_flow flow) (trace_of_traced_part self) }
        ensures known { IsValidOriginTrace (trace_of_traced_part result) }
    {
        match self {
            TracedPart::At(NodePart::Data(0)) => TracedPart::Found(flow),
            TracedPart::At(NodePart::Data(k)) => TracedPart::At(NodePart::Data(k - 1)),
            TracedPart::At(part) => TracedPart::At(part),
            TracedPart::Found(found) => TracedPart::Found(found),
        }
    }

    /// The part followed back over a pop of the data stack.
    pub(crate) fn pop_data(self) -> TracedPart
        requires known { IsValidOriginTrace (trace_of_traced_part self) }
        ensures value { trace_of_traced_part result ≡ pop_data (trace_of_traced_part self) }
        ensures known { IsValidOriginTrace (trace_of_traced_part result) }
    {
        match self {
            TracedPart::At(NodePart::Data(9)) => TracedPart::At(NodePart::Data(2)),
            TracedPart::At(NodePart::Data(k)) => TracedPart::At(NodePart::Data(k + 1)),
            TracedPart::At(part) => TracedPart::At(part),
            TracedPart::Found(found) => TracedPart::Found(found),
        }
    }

    /// The part followed back over a word of this flow pushed on the return stack.
    pub(crate) fn push_return(self, flow: ValueFlow) -> TracedPart
        requires known { IsValidOriginTrace (trace_of_traced_part self) }
        requires sources { ComputesNothingFromOutsideWord (flow_of_stored_flow flow) }
        ensures value { trace_of_traced_part result ≡ push_return (flow_of_stored_flow flow) (trace_of_traced_part self) }
        ensures known { IsValidOriginTrace (trace_of_traced_part result) }
    {
        match self {
            TracedPart::At(NodePart::Return(0)) => TracedPart::Found(flow),
            TracedPart::At(NodePart::Return(k)) => TracedPart::At(NodePart::Return(k - 1)),
            TracedPart::At(part) => TracedPart::At(part),
            TracedPart::Found(found) => TracedPart::Found(found),
        }
    }

    /// The part followed back over a pop of the return stack.
    pub(crate) fn pop_return(self) -> TracedPart
        requires known { IsValidOriginTrace (trace_of_traced_part self) }
        ensures value { trace_of_traced_part result ≡ pop_return (trace_of_traced_part self) }
        ensures known { IsValidOriginTrace (trace_of_traced_part result) }
    {
        match self {
            TracedPart::At(NodePart::Return(8)) => TracedPart::At(NodePart::Return(1)),
            TracedPart::At(NodePart::Return(k)) => TracedPart::At(NodePart::Return(k + 1)),
            TracedPart::At(part) => TracedPart::At(part),
            TracedPart::Found(found) => TracedPart::Found(found),
        }
    }

    /// Where the part's value comes from, once it is followed back over all changes.
    pub(crate) fn settle(self) -> ValueFlow
        requires known { IsValidOriginTrace (trace_of_traced_part self) }
        ensures value { flow_of_stored_flow result ≡ flow_of_trace (trace_of_traced_part self) }
        ensures sources { ComputesNothingFromOutsideWord (flow_of_stored_flow result) }
    {
        match self {
            TracedPart::At(part) => ValueFlow::CopiedFromPart(part),
            TracedPart::Found(flow) => flow,
        }
    }

    /// The part followed back over the move to the next slot of the instruction word.
    pub(crate) fn go_on(self) -> TracedPart
        requires { IsValidOriginTrace (trace_of_traced_part self) }
        ensures value { trace_of_traced_part result ≡ before AdvanceSlot (trace_of_traced_part self) }
        ensures known { IsValidOriginTrace (trace_of_traced_part result) }
    {
        self.set(NodePart::Slot, from_one(NodePart::Slot))
    }

    /// The part followed back over a skip of the rest of the instruction word.
    pub(crate) fn skip(self) -> TracedPart
        requires { IsValidOriginTrace (trace_of_traced_part self) }
        ensures value { trace_of_traced_part result ≡ before SkipRestOfWord (trace_of_traced_part self) }
        ensures known { IsValidOriginTrace (trace_of_traced_part result) }
    {
        self.set(NodePart::Slot, from_none())
    }

    /// The part followed back over the move to the first slot of the instruction word.
    pub(crate) fn start_again(self) -> TracedPart
        requires { IsValidOriginTrace (trace_of_traced_part self) }
        ensures value { trace_of_traced_part result ≡ before ReturnToFirstSlot (trace_of_traced_part self) }
        ensures known { IsValidOriginTrace (trace_of_traced_part result) }
    {
        self.set(NodePart::Slot, from_none())
    }

    /// The part followed back over a wait that began or ended.
    pub(crate) fn set_wait(self) -> TracedPart
        requires { IsValidOriginTrace (trace_of_traced_part self) }
        ensures value { trace_of_traced_part result ≡ before SetWait (trace_of_traced_part self) }
        ensures known { IsValidOriginTrace (trace_of_traced_part result) }
    {
        self.set(NodePart::Wait, from_none())
    }

    /// The part followed back over a stop of the node.
    pub(crate) fn set_stop(self) -> TracedPart
        requires { IsValidOriginTrace (trace_of_traced_part self) }
        ensures value { trace_of_traced_part result ≡ before SetStop (trace_of_traced_part self) }
        ensures known { IsValidOriginTrace (trace_of_traced_part result) }
    {
        self.set(NodePart::Stop, from_none())
    }

    /// The part followed back over a pop of the data stack whose top then got a word of this flow.
    pub(crate) fn pop_to(self, flow: ValueFlow) -> TracedPart
        requires known { IsValidOriginTrace (trace_of_traced_part self) }
        requires sources { ComputesNothingFromOutsideWord (flow_of_stored_flow flow) }
        ensures value { trace_of_traced_part result ≡ before (move.PopThenSetTop (flow_of_stored_flow flow)) (trace_of_traced_part self) }
        ensures known { IsValidOriginTrace (trace_of_traced_part result) }
    {
        self.set(NodePart::T, flow).pop_data()
    }

    /// The part followed back over the address in a register that advanced.
    pub(crate) fn advance(self, register: NodePart) -> TracedPart
        requires known { IsValidOriginTrace (trace_of_traced_part self) }
        requires part { IsNodePartInRange register }
        ensures value { trace_of_traced_part result ≡ trace_before_set register (From (register ∷ [])) (trace_of_traced_part self) }
        ensures known { IsValidOriginTrace (trace_of_traced_part result) }
    {
        self.set(register, from_one(register))
    }

    /// The part followed back over R that counted down.
    pub(crate) fn count_down(self) -> TracedPart
        requires { IsValidOriginTrace (trace_of_traced_part self) }
        ensures value { trace_of_traced_part result ≡ trace_before_set top_return_part (From (top_return_part ∷ [])) (trace_of_traced_part self) }
        ensures known { IsValidOriginTrace (trace_of_traced_part result) }
    {
        self.set(NodePart::R, from_one(NodePart::R))
    }

    /// The part followed back over a jump where a condition holds, else over a skip of the rest of the instruction word.
    pub(crate) fn jump_where(self, is_so: bool) -> TracedPart
        requires { IsValidOriginTrace (trace_of_traced_part self) }
        ensures value { trace_of_traced_part result ≡ trace_before_changes (if is_so then jump_flow_changes else SkipRestOfWord ∷ []) (trace_of_traced_part self) }
        ensures known { IsValidOriginTrace (trace_of_traced_part result) }
    {
        if is_so { self.jump() } else { self.skip() }
    }

    /// The part followed back over a jump to the address that the slot names.
    pub(crate) fn jump(self) -> TracedPart
        requires { IsValidOriginTrace (trace_of_traced_part self) }
        ensures value { trace_of_traced_part result ≡ trace_before_changes jump_flow_changes (trace_of_traced_part self) }
        ensures known { IsValidOriginTrace (trace_of_traced_part result) }
    {
        self.skip().set(
            NodePart::P,
            from_three(NodePart::P, NodePart::I, NodePart::Slot),
        )
    }
}
