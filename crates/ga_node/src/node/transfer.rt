//! The two halves of a transfer between neighbours.

use super::Node;
use crate::saved::Saved;
use crate::wait::Wait;
use ga_word::Word18;

impl Node {
    ghost use Rattle.std.specs.Prelude.{◌≡◌, []};
    ghost use Rattle.ga_node.specs.State.{HasAtMostOneStatus};
    ghost use Rattle.ga_node.specs.Record.{record_of_node};
    ghost use Rattle.ga_node.specs.Saving.{IsUndoLog};
    ghost use Rattle.ga_node.specs.Table.{register_t, sent, send_changes, taken, take_changes};
    ghost use Rattle.ga_node.specs.Ready.{IsWriteWait, IsReadWait};

    /// Completes the writer's side, as [`Node::send_transfer_word`] does, with the overwritten values put into an empty list that
    /// the caller keeps.
    pub fn send_transfer_word_logged(&mut self, saved: &mut Saved) -> Word18
        requires writing { IsWriteWait (record_of_node self.old).wait }
        requires empty { saved.old ≡ [] }
        ensures word { result ≡ register_t (record_of_node self.old) }
        ensures sent { record_of_node self.new ≡ sent (record_of_node self.old) }
        ensures saves { IsUndoLog send_changes self.old self.new saved.new }
        ensures apart { HasAtMostOneStatus self.old }
    {
        let word = self.top();
        self.end_wait(saved);
        self.pop_data(saved);
        self.go_on(saved);
        word
    }

    /// Completes the writer's side of a transfer: pops T, the transferred word. Returns T and the overwritten values.
    pub fn send_transfer_word(&mut self) -> (Word18, Saved)
        requires { IsWriteWait (record_of_node self.old).wait }
        ensures word { result.0 ≡ register_t (record_of_node self.old) }
        ensures sent { record_of_node self.new ≡ sent (record_of_node self.old) }
        ensures saves { IsUndoLog send_changes self.old self.new result.1 }
        ensures apart { HasAtMostOneStatus self.old }
    {
        let mut saved = Saved::new();
        let word = self.send_transfer_word_logged(&mut saved);
        (word, saved)
    }

    /// Completes the reader's side, as [`Node::take_transfer_word`] does, with the overwritten values put into an empty list that
    /// the caller keeps.
    pub fn take_transfer_word_logged(&mut self, word: Word18, saved: &mut Saved)
        requires reading { IsReadWait (record_of_node self.old).wait }
        requires empty { saved.old ≡ [] }
        ensures taken { record_of_node self.new ≡ taken word (record_of_node self.old) }
        ensures saves { IsUndoLog (take_changes (record_of_node self.old).wait word) self.old self.new saved.new }
        ensures apart { HasAtMostOneStatus self.old }
    {
        let wait = self.wait();
        self.end_wait(saved);
        match wait {
            Wait::Fetch(_) => {
                self.set_i(saved, word);
                self.start_again(saved);
            }
            Wait::Read(_) => {
                self.push_data(saved, word);
                self.go_on(saved);
            }
            Wait::Nothing => unreachable!(),
            Wait::Write(_) => unreachable!(),
        }
    }

    /// Completes the reader's side of a transfer: the word becomes the instruction word or is pushed, by what the node
    /// waits for. Answers the overwritten values.
    pub fn take_transfer_word(&mut self, word: Word18) -> Saved
        requires { IsReadWait (record_of_node self.old).wait }
        ensures taken { record_of_node self.new ≡ taken word (record_of_node self.old) }
        ensures saves { IsUndoLog (take_changes (record_of_node self.old).wait word) self.old self.new result }
        ensures apart { HasAtMostOneStatus self.old }
    {
        let mut saved = Saved::new();
        self.take_transfer_word_logged(word, &mut saved);
        saved
    }
}
