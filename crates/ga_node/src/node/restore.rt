//! Taking events back.

use super::Node;
use crate::aside::SuspendedStatus;
use crate::place::NodePlace;
use crate::saved::Saved;
use crate::wait::Wait;

impl Node {
    ghost use Rattle.std.specs.Prelude.{◌≡◌, ◌≤◌, take};
    ghost use Rattle.ga_node.specs.State.{node_with_value, node_with_restored_values, node_with_resumed_status, IsPlaceValueInRange, ArePlaceValuesValid, HasAtMostOneStatus, HasClearedStatus};

    /// Writes one old value back, of a node whose wait and stop are set aside.
    #[tactic(auto, using(crate::proofs::Restoring::stays_apart))]
    #[inline(always)]
    pub(crate) fn put_back(&mut self, aside: &mut SuspendedStatus, place: NodePlace, old: u32)
        requires fit { IsPlaceValueInRange place old }
        requires cleared { HasClearedStatus self.old }
        requires in_range { aside.old.stop ≤ 3 }
        ensures back { node_with_resumed_status self.new aside.new ≡ node_with_value (node_with_resumed_status self.old aside.old) place old }
        ensures cleared { HasClearedStatus self.new }
        ensures in_range { aside.new.stop ≤ 3 }
    {
        match place {
            NodePlace::Wait => aside.wait = Wait::from_code(old),
            NodePlace::Stop => aside.stop = old as u8,
            _ => self.set(place, old),
        }
    }

    /// Sets the wait and the stop aside, for old values of many events to be written back by `write_back`.
    #[inline(always)]
    pub fn suspend_status(&mut self) -> SuspendedStatus
        ensures same { node_with_resumed_status self.new result ≡ self.old }
        ensures apart { HasAtMostOneStatus self.old }
        ensures cleared { HasClearedStatus self.new }
        ensures in_range { result.stop ≤ 3 }
    {
        let aside = SuspendedStatus {
            wait: self.wait,
            stop: self.stop,
        };
        self.wait = Wait::Nothing;
        self.stop = 0;
        aside
    }

    /// Writes the first six of the values that an event overwrote back, the last of them first, where the wait and the stop
    /// are set aside.
    #[inline(always)]
    fn write_six_back(&mut self, aside: &mut SuspendedStatus, saved: &Saved)
        requires fit { ArePlaceValuesValid saved.now }
        requires cleared { HasClearedStatus self.old }
        requires in_range { aside.old.stop ≤ 3 }
        ensures back { node_with_resumed_status self.new aside.new ≡ node_with_restored_values (node_with_resumed_status self.old aside.old) (take 6 saved.now) }
        ensures cleared { HasClearedStatus self.new }
        ensures in_range { aside.new.stop ≤ 3 }
    {
        let count = saved.six();
        for k in 0..count {
            let (place, old) = saved.six_at(count - 1 - k);
            self.put_back(aside, place, old);
        }
    }

    /// Writes the values that an event overwrote back, the last of them first, where the wait and the stop are set aside.
    #[inline(always)]
    pub fn write_back(&mut self, aside: &mut SuspendedStatus, saved: &Saved)
        requires fit { ArePlaceValuesValid saved.now }
        requires cleared { HasClearedStatus self.old }
        requires in_range { aside.old.stop ≤ 3 }
        ensures back { node_with_resumed_status self.new aside.new ≡ node_with_restored_values (node_with_resumed_status self.old aside.old) saved.now }
        ensures cleared { HasClearedStatus self.new }
        ensures in_range { aside.new.stop ≤ 3 }
    {
        if saved.is_full() {
            let (place, old) = saved.at(6);
            self.put_back(aside, place, old);
        }
        self.write_six_back(aside, saved);
    }

    /// Gives the node the wait and the stop that were set aside.
    #[inline(always)]
    pub fn resume_status(&mut self, aside: SuspendedStatus)
        requires in_range { aside.stop ≤ 3 }
        requires apart { HasAtMostOneStatus (node_with_resumed_status self.old aside) }
        ensures { self.new ≡ node_with_resumed_status self.old aside }
    {
        self.wait = aside.wait;
        self.stop = aside.stop;
    }

    /// Writes the seven values that an event overwrote back, the last of them first.
    #[inline(never)]
    fn restore_seven(&mut self, saved: &Saved)
        requires fit { ArePlaceValuesValid saved.now }
        requires apart { HasAtMostOneStatus (node_with_restored_values self.old saved.now) }
        ensures { self.new ≡ node_with_restored_values self.old saved.now }
    {
        let mut aside = self.suspend_status();
        self.write_back(&mut aside, saved);
        self.resume_status(aside);
    }

    /// Writes the values that an event overwrote back, the last of them first.
    pub fn restore(&mut self, saved: &Saved)
        requires fit { ArePlaceValuesValid saved.now }
        requires apart { HasAtMostOneStatus (node_with_restored_values self.old saved.now) }
        ensures { self.new ≡ node_with_restored_values self.old saved.now }
    {
        if saved.is_full() {
            return self.restore_seven(saved);
        }
        let mut aside = self.suspend_status();
        self.write_six_back(&mut aside, saved);
        self.resume_status(aside);
    }
}
