//! The old values of many events, of each place the one that is written back last.

ghost use Rattle.ga_node.specs.inner.Packed.{unpacked_place_value, IsPackedWord};

use crate::aside::SuspendedStatus;
use crate::node::Node;
use crate::saved::{Saved, unpack};
use std::marker::Model;

/// The codes of places are below this number.
const CODES: usize = 249;

/// The old values of many events, gathered from the newest event on: of each place the one that is written back last. To write
/// these back leads to the same node as to write all of them back. A contract sees a list of pairs.
#[derive(Drop)]
pub struct GatheredOldValues {
    // At the code of each place one more than the word of its pair, 0 where it has none.
    words: [u32; CODES],
}

impl Model for GatheredOldValues {
    ghost use Rattle.std.specs.Prelude.{◌≡◌, List, ℕ, length};
    ghost use Rattle.ga_node.specs.declared.place.NodePlace.{NodePlace};
    ghost use Rattle.ga_node.specs.inner.Packed.{place_values_of_packed_words, ArePackedWordsAtPlaceCodes};

    ghost Value = { List (NodePlace × ℕ) };

    ghost view = { λ g. place_values_of_packed_words g.words };

    ghost invariant = { λ g. (length g.words ≡ 249) × ArePackedWordsAtPlaceCodes 0 g.words };
}

impl GatheredOldValues {
    ghost use Rattle.std.specs.Prelude.{◌≡◌, ◌≤◌, []};
    ghost use Rattle.ga_node.specs.Record.{NodeState};
    ghost use Rattle.ga_node.specs.State.{node_with_value, node_with_resumed_status, node_with_restored_values, IsPlaceValueInRange, ArePlaceValuesValid, HasClearedStatus};

    /// No old values: none is gathered yet.
    pub fn new() -> Self
        ensures { result ≡ [] }
    {
        GatheredOldValues { words: [0; CODES] }
    }

    // Adds a pair, which is written back last.
    #[inline(always)]
    fn put(&mut self, word: u32)
        requires { IsPackedWord word }
        ensures back { (node : NodeState) → node_with_restored_values node self.new ≡ node_with_value (node_with_restored_values node self.old) (unpacked_place_value word).0 (unpacked_place_value word).1 }
        ensures fit { ArePlaceValuesValid self.old → IsPlaceValueInRange (unpacked_place_value word).0 (unpacked_place_value word).1 → ArePlaceValuesValid self.new }
    {
        self.words[(word / 0x1000000) as usize] = word + 1;
    }

    /// Adds the values that an event overwrote; they are written back after those already gathered.
    #[inline(always)]
    pub fn add(&mut self, saved: &Saved)
        ensures back { (node : NodeState) → node_with_restored_values node self.new ≡ node_with_restored_values (node_with_restored_values node self.old) saved.now }
        ensures fit { ArePlaceValuesValid self.old → ArePlaceValuesValid saved.now → ArePlaceValuesValid self.new }
    {
        let count = saved.len();
        for k in 0..count {
            self.put(saved.word(count - 1 - k));
        }
    }

    /// Writes the gathered values back to a node whose wait and stop are set aside.
    pub fn write_back(&self, node: &mut Node, aside: &mut SuspendedStatus)
        requires fit { ArePlaceValuesValid self.now }
        requires cleared { HasClearedStatus node.old }
        requires in_range { aside.old.stop ≤ 3 }
        ensures back { node_with_resumed_status node.new aside.new ≡ node_with_restored_values (node_with_resumed_status node.old aside.old) self.now }
        ensures cleared { HasClearedStatus node.new }
        ensures in_range { aside.new.stop ≤ 3 }
    {
        let words = &self.words;
        for k in 0..CODES {
            let word = words[CODES - 1 - k];
            if word > 0 {
                let (place, old) = unpack(word - 1);
                node.put_back(aside, place, old);
            }
        }
    }
}
