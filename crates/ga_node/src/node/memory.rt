//! Opcodes that read or write at an address. An access that turns out to be a wait or a stop is answered as an `Err`.

use super::Node;
use crate::kind::OwnEventKind;
use crate::saved::Saved;
use crate::seen::SeenNeighbours;
use crate::wait::ReadKind;
use ga_ports::{advance_a, advance_p};
use ga_slots::Op;

impl Node {
    ghost use Rattle.std.specs.Prelude.{◌≡◌, [], IfErr, OnOk};
    ghost use Rattle.ga_node.specs.Record.{record_of_node};
    ghost use Rattle.ga_node.specs.inner.Saving.{IsAccessMadeUnreplaced, IsAccessWithoutReadMade, IsReplacementEventMade, IsWriteReplacedByEvent};
    ghost use Rattle.ga_node.specs.Table.{opcode_effect, changes_or_event_of_opcode};
    ghost use Rattle.ga_node.specs.Ready.{IsRunning};

    /// `@p`, fetch p: the word at P is pushed, and P advances.
    pub(super) fn run_fetch_p(
        &mut self,
        seen: SeenNeighbours,
        saved: &mut Saved,
    ) -> Result<(), OwnEventKind>
        requires running { IsRunning (record_of_node self.old) }
        requires empty { saved.old ≡ [] }
        ensures done { OnOk result (IsAccessMadeUnreplaced (changes_or_event_of_opcode Op.FetchP seen (record_of_node self.old)) self.old self.new saved.new) }
        ensures ended { IfErr result (λ kind. IsReplacementEventMade (changes_or_event_of_opcode Op.FetchP seen (record_of_node self.old)) kind self.old self.new saved.new) }
    {
        let p = self.p();
        let word = self.read(seen, saved, p, ReadKind::Stack)?;
        self.push_data(saved, word);
        self.set_p(saved, advance_p(p));
        self.go_on(saved);
        Ok(())
    }

    /// `@+`, fetch plus: the word at A is pushed, and A advances.
    pub(super) fn run_fetch_plus(
        &mut self,
        seen: SeenNeighbours,
        saved: &mut Saved,
    ) -> Result<(), OwnEventKind>
        requires running { IsRunning (record_of_node self.old) }
        requires empty { saved.old ≡ [] }
        ensures done { OnOk result (IsAccessMadeUnreplaced (changes_or_event_of_opcode Op.FetchPlus seen (record_of_node self.old)) self.old self.new saved.new) }
        ensures ended { IfErr result (λ kind. IsReplacementEventMade (changes_or_event_of_opcode Op.FetchPlus seen (record_of_node self.old)) kind self.old self.new saved.new) }
    {
        let a = self.a();
        let word = self.read(seen, saved, a.get(), ReadKind::Stack)?;
        self.push_data(saved, word);
        self.set_a(saved, advance_a(a));
        self.go_on(saved);
        Ok(())
    }

    /// `@b`, fetch b: the word at B is pushed.
    pub(super) fn run_fetch_b(
        &mut self,
        seen: SeenNeighbours,
        saved: &mut Saved,
    ) -> Result<(), OwnEventKind>
        requires running { IsRunning (record_of_node self.old) }
        requires empty { saved.old ≡ [] }
        ensures done { OnOk result (IsAccessMadeUnreplaced (changes_or_event_of_opcode Op.FetchB seen (record_of_node self.old)) self.old self.new saved.new) }
        ensures ended { IfErr result (λ kind. IsReplacementEventMade (changes_or_event_of_opcode Op.FetchB seen (record_of_node self.old)) kind self.old self.new saved.new) }
    {
        let b = self.b();
        let word = self.read(seen, saved, b, ReadKind::Stack)?;
        self.push_data(saved, word);
        self.go_on(saved);
        Ok(())
    }

    /// `@`, fetch: the word at A is pushed.
    pub(super) fn run_fetch(
        &mut self,
        seen: SeenNeighbours,
        saved: &mut Saved,
    ) -> Result<(), OwnEventKind>
        requires running { IsRunning (record_of_node self.old) }
        requires empty { saved.old ≡ [] }
        ensures done { OnOk result (IsAccessMadeUnreplaced (changes_or_event_of_opcode Op.Fetch seen (record_of_node self.old)) self.old self.new saved.new) }
        ensures ended { IfErr result (λ kind. IsReplacementEventMade (changes_or_event_of_opcode Op.Fetch seen (record_of_node self.old)) kind self.old self.new saved.new) }
    {
        let a = self.a();
        let word = self.read(seen, saved, a.get(), ReadKind::Stack)?;
        self.push_data(saved, word);
        self.go_on(saved);
        Ok(())
    }

    /// `!p`, store p: stores T at the address in P and pops it, and P advances.
    pub(super) fn run_store_p(&mut self, saved: &mut Saved) -> Result<(), OwnEventKind>
        requires running { IsRunning (record_of_node self.old) }
        requires empty { saved.old ≡ [] }
        ensures done { OnOk result (IsAccessWithoutReadMade (opcode_effect Op.StoreP (record_of_node self.old)) self.old self.new saved.new) }
        ensures ended { IfErr result (λ kind. IsWriteReplacedByEvent (opcode_effect Op.StoreP (record_of_node self.old)) kind self.old self.new saved.new) }
    {
        let p = self.p();
        self.write(saved, p)?;
        self.pop_data(saved);
        self.set_p(saved, advance_p(p));
        self.go_on(saved);
        Ok(())
    }

    /// `!+`, store plus: stores T at the address in A and pops it, and A advances.
    pub(super) fn run_store_plus(&mut self, saved: &mut Saved) -> Result<(), OwnEventKind>
        requires running { IsRunning (record_of_node self.old) }
        requires empty { saved.old ≡ [] }
        ensures done { OnOk result (IsAccessWithoutReadMade (opcode_effect Op.StorePlus (record_of_node self.old)) self.old self.new saved.new) }
        ensures ended { IfErr result (λ kind. IsWriteReplacedByEvent (opcode_effect Op.StorePlus (record_of_node self.old)) kind self.old self.new saved.new) }
    {
        let a = self.a();
        self.write(saved, a.get())?;
        self.pop_data(saved);
        self.set_a(saved, advance_a(a));
        self.go_on(saved);
        Ok(())
    }

    /// `!b`, store b: stores T at the address in B and pops it.
    pub(super) fn run_store_b(&mut self, saved: &mut Saved) -> Result<(), OwnEventKind>
        requires running { IsRunning (record_of_node self.old) }
        requires empty { saved.old ≡ [] }
        ensures done { OnOk result (IsAccessWithoutReadMade (opcode_effect Op.StoreB (record_of_node self.old)) self.old self.new saved.new) }
        ensures ended { IfErr result (λ kind. IsWriteReplacedByEvent (opcode_effect Op.StoreB (record_of_node self.old)) kind self.old self.new saved.new) }
    {
        let b = self.b();
        self.write(saved, b)?;
        self.pop_data(saved);
        self.go_on(saved);
        Ok(())
    }

    /// `!`, store: stores T at the address in A and pops it.
    pub(super) fn run_store(&mut self, saved: &mut Saved) -> Result<(), OwnEventKind>
        requires running { IsRunning (record_of_node self.old) }
        requires empty { saved.old ≡ [] }
        ensures done { OnOk result (IsAccessWithoutReadMade (opcode_effect Op.Store (record_of_node self.old)) self.old self.new saved.new) }
        ensures ended { IfErr result (λ kind. IsWriteReplacedByEvent (opcode_effect Op.Store (record_of_node self.old)) kind self.old self.new saved.new) }
    {
        let a = self.a();
        self.write(saved, a.get())?;
        self.pop_data(saved);
        self.go_on(saved);
        Ok(())
    }
}
