//! Reads and writes at an address, which may turn out to be a wait or a stop.

use super::Node;
use crate::kind::OwnEventKind;
use crate::place::NodePlace;
use crate::saved::Saved;
use crate::seen::SeenNeighbours;
use crate::wait::{ReadKind, Wait};
use ga_ports::{AddressTarget, classify_address};
use ga_word::Word18;

impl Node {
    ghost use Rattle.std.specs.Prelude.{◌≡◌, ◌≤◌, [], Ok, IfOk, IfErr, OnOk, length};
    ghost use Rattle.ga_ports.specs.Address.{address_target};
    ghost use Rattle.ga_node.specs.Record.{record_of_node};
    ghost use Rattle.ga_node.specs.inner.Saving.{AreChangesMadeAndSaved, IsAccessMadeUnreplaced, IsReplacementEventMade};
    ghost use Rattle.ga_node.specs.Table.{target_read_result, target_write_result, wait_effect, stop_effect};
    ghost use Rattle.ga_node.specs.Ready.{IsRunning};

    /// The node waits, in place of the event's whole effect.
    #[tactic(auto, unfolding(crate::specs::Record::record_of_node))]
    #[inline(always)]
    fn wait_for(&mut self, saved: &mut Saved, wait: Wait) -> OwnEventKind
        requires running { IsRunning (record_of_node self.old) }
        requires empty { saved.old ≡ [] }
        ensures kind { result ≡ (wait_effect wait).0 }
        ensures made { AreChangesMadeAndSaved (wait_effect wait).1 self.old self.new saved.new }
    {
        saved.add(NodePlace::Wait, 0);
        self.wait = wait;
        OwnEventKind::Wait
    }

    /// The node stops, in place of the event's whole effect.
    #[tactic(auto, unfolding(crate::specs::Record::record_of_node))]
    #[inline(always)]
    fn stop_with(&mut self, saved: &mut Saved, code: u8) -> OwnEventKind
        requires running { IsRunning (record_of_node self.old) }
        requires in_range { code ≤ 3 }
        requires empty { saved.old ≡ [] }
        ensures kind { result ≡ (stop_effect code).0 }
        ensures made { AreChangesMadeAndSaved (stop_effect code).1 self.old self.new saved.new }
    {
        saved.add(NodePlace::Stop, 0);
        self.stop = code;
        OwnEventKind::Stop(code)
    }

    /// What a read at an address gives: a word, or the kind of the event that it has become.
    #[tactic(auto, unfolding(crate::specs::Record::record_of_node, crate::specs::Table::target_read_result))]
    #[inline(always)]
    pub(super) fn read(
        &mut self,
        seen: SeenNeighbours,
        saved: &mut Saved,
        address: u32,
        reader: ReadKind,
    ) -> Result<Word18, OwnEventKind>
        requires running { IsRunning (record_of_node self.old) }
        requires empty { saved.old ≡ [] }
        ensures word { IfOk result (λ word. target_read_result (address_target address) reader seen (record_of_node self.old) ≡ Ok word) }
        ensures same { OnOk result (self.new ≡ self.old) }
        ensures unsaved { OnOk result (saved.new ≡ []) }
        ensures ended { IfErr result (λ kind. IsReplacementEventMade (target_read_result (address_target address) reader seen (record_of_node self.old)) kind self.old self.new saved.new) }
    {
        match classify_address(address) {
            AddressTarget::Ram(k) => Ok(self.ram[k as usize]),
            AddressTarget::Rom(k) => Ok(self.rom[k as usize]),
            AddressTarget::Io => Ok(seen.io_word()),
            AddressTarget::Ports(sides) => {
                let wait = match reader {
                    ReadKind::Instruction => Wait::Fetch(sides),
                    ReadKind::Stack => Wait::Read(sides),
                };
                Err(self.wait_for(saved, wait))
            }
            AddressTarget::Bad => Err(self.stop_with(saved, 2)),
        }
    }

    /// Writes T at an address, or answers the kind of the event that this has become.
    #[tactic(auto, using(crate::proofs::Saving::made_nothing), unfolding(crate::specs::Table::target_write_result))]
    #[inline(always)]
    pub(super) fn write(&mut self, saved: &mut Saved, address: u32) -> Result<(), OwnEventKind>
        requires running { IsRunning (record_of_node self.old) }
        requires empty { saved.old ≡ [] }
        ensures done { OnOk result (IsAccessMadeUnreplaced (target_write_result (address_target address) (record_of_node self.old)) self.old self.new saved.new) }
        ensures few { length saved.new ≤ 1 }
        ensures ended { IfErr result (λ kind. IsReplacementEventMade (target_write_result (address_target address) (record_of_node self.old)) kind self.old self.new saved.new) }
    {
        let word = self.top();
        match classify_address(address) {
            AddressTarget::Ram(k) => {
                self.set_ram(saved, k, word);
                Ok(())
            }
            AddressTarget::Rom(_) => Ok(()),
            AddressTarget::Io => {
                self.set_io(saved, word);
                Ok(())
            }
            AddressTarget::Ports(sides) => match sides.only_side() {
                Some(side) => Err(self.wait_for(saved, Wait::Write(side))),
                None => Err(self.stop_with(saved, 1)),
            },
            AddressTarget::Bad => Err(self.stop_with(saved, 2)),
        }
    }
}
