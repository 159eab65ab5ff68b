//! The events of a node's own: a fetch, an opcode, a wait or a stop.

ghost use Rattle.std.specs.Prelude.{◌≡◌};
ghost use Rattle.ga_node.specs.inner.Saving.{own_event_kind_after_access};

use super::Node;
use crate::due::NextAction;
use crate::kind::{EventRefusal, OwnEventKind};
use crate::saved::Saved;
use crate::seen::SeenNeighbours;
use crate::wait::{ReadKind, Wait};
use ga_ports::{AddressTarget, advance_p, classify_address};
use ga_slots::{Op, opcode};

/// The kind of an event, which an access may have made another.
#[inline(always)]
fn named(kind: OwnEventKind, done: Result<(), OwnEventKind>) -> OwnEventKind
    ensures { result ≡ own_event_kind_after_access kind done }
{
    match done {
        Ok(()) => kind,
        Err(other) => other,
    }
}

impl Node {
    ghost use Rattle.std.specs.Prelude.{◌≡◌, ◌<◌, ◌%◌, [], IfOk, IfErr, IfNone, OnOk, OnErr, None, Some, MatchResult};
    ghost use Rattle.ga_slots.specs.Codes.{code_of_opcode};
    ghost use Rattle.ga_node.specs.State.{HasAtMostOneStatus};
    ghost use Rattle.ga_node.specs.Record.{record_of_node};
    ghost use Rattle.ga_node.specs.Saving.{IsUndoLog};
    ghost use Rattle.ga_node.specs.inner.Saving.{IsAccessMadeUnreplaced, IsReplacementEventMade};
    ghost use Rattle.ga_node.specs.Table.{own, own_event, changes_or_event_of_opcode, changes_or_event_of_fetch, reads_io_next, is_look_action, opcode_reads_io, next_action_of_node, refusal_of_own_event};
    ghost use Rattle.ga_node.specs.Ready.{IsRunning, CanExecuteAction};

    /// Carries out an opcode, or answers the kind of the event that its access has become.
    #[inline(always)]
    pub(super) fn execute(
        &mut self,
        seen: SeenNeighbours,
        saved: &mut Saved,
        op: Op,
    ) -> Result<(), OwnEventKind>
        requires running { IsRunning (record_of_node self.old) }
        requires slot { (record_of_node self.old).slot < 4 }
        requires last { (record_of_node self.old).slot ≡ 3 → code_of_opcode op % 4 ≡ 0 }
        requires empty { saved.old ≡ [] }
        ensures done { OnOk result (IsAccessMadeUnreplaced (changes_or_event_of_opcode op seen (record_of_node self.old)) self.old self.new saved.new) }
        ensures ended { IfErr result (λ kind. IsReplacementEventMade (changes_or_event_of_opcode op seen (record_of_node self.old)) kind self.old self.new saved.new) }
    {
        match op {
            Op::Return => self.run_return(saved),
            Op::Execute => self.run_execute(saved),
            Op::Jump => self.run_jump(saved),
            Op::Call => self.run_call(saved),
            Op::Unext => self.run_unext(saved),
            Op::Next => self.run_next(saved),
            Op::If => self.run_if(saved),
            Op::MinusIf => self.run_minus_if(saved),
            Op::FetchP => return self.run_fetch_p(seen, saved),
            Op::FetchPlus => return self.run_fetch_plus(seen, saved),
            Op::FetchB => return self.run_fetch_b(seen, saved),
            Op::Fetch => return self.run_fetch(seen, saved),
            Op::StoreP => return self.run_store_p(saved),
            Op::StorePlus => return self.run_store_plus(saved),
            Op::StoreB => return self.run_store_b(saved),
            Op::Store => return self.run_store(saved),
            Op::MultiplyStep => self.run_multiply_step(saved),
            Op::TwoStar => self.run_two_star(saved),
            Op::TwoSlash => self.run_two_slash(saved),
            Op::Invert => self.run_invert(saved),
            Op::Plus => self.run_plus(saved),
            Op::And => self.run_and(saved),
            Op::Or => self.run_or(saved),
            Op::Drop => self.run_drop(saved),
            Op::Dup => self.run_dup(saved),
            Op::Pop => self.run_pop(saved),
            Op::Over => self.run_over(saved),
            Op::A => self.run_a(saved),
            Op::Nop => self.go_on(saved),
            Op::Push => self.run_push(saved),
            Op::BStore => self.run_b_store(saved),
            Op::AStore => self.run_a_store(saved),
        }
        Ok(())
    }

    /// Why the node has no event of its own.
    #[tactic(auto, unfolding(crate::specs::Record::record_of_node))]
    pub fn own_event_refusal(&self) -> Option<EventRefusal>
        ensures reason { result ≡ refusal_of_own_event (record_of_node self.now) }
        ensures running { IfNone result (IsRunning (record_of_node self.now)) }
    {
        match self.wait {
            Wait::Nothing => {
                if self.stop == 0 {
                    None
                } else {
                    Some(EventRefusal::Stopped)
                }
            }
            _ => Some(EventRefusal::Waiting),
        }
    }

    /// Fetches the word at P, or answers the kind of the event that this has become.
    #[inline(always)]
    pub(super) fn fetch(
        &mut self,
        seen: SeenNeighbours,
        saved: &mut Saved,
    ) -> Result<(), OwnEventKind>
        requires running { IsRunning (record_of_node self.old) }
        requires empty { saved.old ≡ [] }
        ensures done { OnOk result (IsAccessMadeUnreplaced (changes_or_event_of_fetch seen (record_of_node self.old)) self.old self.new saved.new) }
        ensures ended { IfErr result (λ kind. IsReplacementEventMade (changes_or_event_of_fetch seen (record_of_node self.old)) kind self.old self.new saved.new) }
    {
        let p = self.p();
        let word = self.read(seen, saved, p, ReadKind::Instruction)?;
        self.begin(saved, word, advance_p(p));
        Ok(())
    }

    /// Whether the opcode reads `io`.
    #[inline(always)]
    #[tactic(auto, using(crate::proofs::Looks::reads_not))]
    fn opcode_reads_io(&self, op: Op) -> bool
        ensures { result ≡ opcode_reads_io op (record_of_node self.now) }
    {
        // the four that read have the codes 08 to 0b: this test excludes most others, without a jump by opcode
        if op.code() / 4 != 2 {
            return false;
        }
        let address = match op {
            Op::FetchP => self.p(),
            Op::FetchPlus => self.a().get(),
            Op::FetchB => self.b(),
            Op::Fetch => self.a().get(),
            _ => return false,
        };
        classify_address(address) == AddressTarget::Io
    }

    /// What the node's next event of its own carries out, for [`Node::is_look_action`] and [`Node::execute_action_logged`].
    #[inline(always)]
    pub fn due_action(&self) -> NextAction
        requires { refusal_of_own_event (record_of_node self.now) ≡ None }
        ensures due { result ≡ next_action_of_node (record_of_node self.now) }
        ensures can { CanExecuteAction result (record_of_node self.now) }
    {
        let slot = self.slot();
        if slot == 4 {
            return NextAction::Fetch;
        }
        NextAction::Run(opcode(self.i(), slot))
    }

    /// Whether an event that carries this out is a look ([`Node::reads_io_next`]).
    #[inline(always)]
    pub fn is_look_action(&self, due: NextAction) -> bool
        ensures { result ≡ is_look_action due (record_of_node self.now) }
    {
        match due {
            NextAction::Fetch => classify_address(self.p()) == AddressTarget::Io,
            NextAction::Run(op) => self.opcode_reads_io(op),
        }
    }

    /// Whether the opcode in the next slot reads `io`, or the fetch that is due reads from it (DB001, the `io` register). If
    /// the node runs, its next own event is then a look, which depends on what the neighbours wait for; a node that waits or is
    /// stopped has none now.
    #[tactic(auto, unfolding(crate::specs::Table::reads_io_next))]
    pub fn reads_io_next(&self) -> bool
        ensures { result ≡ reads_io_next (record_of_node self.now) }
    {
        let slot = self.slot();
        if slot == 4 {
            return self.is_look_action(NextAction::Fetch);
        }
        self.is_look_action(NextAction::Run(opcode(self.i(), slot)))
    }

    /// Makes the node's next event, which carries this out, as [`Node::own`] does, and puts the values that it overwrote
    /// into a list that the caller keeps, which is empty before.
    #[inline(always)]
    pub fn execute_action_logged(
        &mut self,
        due: NextAction,
        seen: SeenNeighbours,
        saved: &mut Saved,
    ) -> OwnEventKind
        requires due { due ≡ next_action_of_node (record_of_node self.old) }
        requires can { CanExecuteAction due (record_of_node self.old) }
        requires empty { saved.old ≡ [] }
        ensures event { (result, record_of_node self.new) ≡ own seen (record_of_node self.old) }
        ensures saves { IsUndoLog (own_event seen (record_of_node self.old)).1 self.old self.new saved.new }
    {
        match due {
            NextAction::Fetch => {
                let done = self.fetch(seen, saved);
                named(OwnEventKind::Fetch, done)
            }
            NextAction::Run(op) => {
                let done = self.execute(seen, saved, op);
                named(OwnEventKind::Run(op.code()), done)
            }
        }
    }

    /// Makes the node's next event, with these neighbours: a fetch where one is due, else the opcode in the slot. An access to
    /// a port becomes a wait, and a bad one a stop, in place of the whole event (DB001, opcodes and ports). Only a look depends
    /// on the neighbours ([`Node::reads_io_next`]).
    ///
    /// # Errors
    /// `Waiting` or `Stopped`, where the node waits or is stopped.
    #[tactic(auto, using(crate::proofs::Restoring::apart_from_ready))]
    pub fn own(&mut self, seen: SeenNeighbours) -> Result<(OwnEventKind, Saved), EventRefusal>
        ensures ready { MatchResult result (λ _. refusal_of_own_event (record_of_node self.old) ≡ None) (λ reason. refusal_of_own_event (record_of_node self.old) ≡ Some reason) }
        ensures event { IfOk result (λ event. (event.0, record_of_node self.new) ≡ own seen (record_of_node self.old)) }
        ensures saves { IfOk result (λ event. IsUndoLog (own_event seen (record_of_node self.old)).1 self.old self.new event.1) }
        ensures apart { OnOk result (HasAtMostOneStatus self.old) }
        ensures same { OnErr result (self.new ≡ self.old) }
    {
        if let Some(reason) = self.own_event_refusal() {
            return Err(reason);
        }
        let mut saved = Saved::new();
        let due = self.due_action();
        let kind = self.execute_action_logged(due, seen, &mut saved);
        Ok((kind, saved))
    }
}
