//! Listing the words of a link one after another, and counting them. A word is in the steps of both ends of the link.

ghost use Rattle.std.specs.Prelude.{◌≡◌, ◌≤◌, ◌+◌, option_to_list};
ghost use Rattle.ga_lab.specs.Machine.{history_of_node};
ghost use Rattle.ga_scheduler.specs.Words.{scanned_link_end, link_transfers, numbered_transfers, transfer_of_event, is_transfer_over_link, transfers_over_link_by_event, link_transfer_count};

use super::{Transfer, TransferIter};
use ga_grid::NodeId;
use ga_lab::{Lab, MadeEvent};

// Whether the reader has fewer steps than the writer. The steps of either give the words.
#[tactic(auto, using(crate::proofs::WordCounts::by_either))]
fn is_shorter(lab: &Lab, writer: NodeId, reader: NodeId) -> bool
    ensures { numbered_transfers writer.number reader.number 0 (history_of_node lab.now (scanned_link_end result writer reader))
        ≡ link_transfers lab.now writer.number reader.number }
{
    lab.steps(reader) < lab.steps(writer)
}

// The end of a link whose steps are read: the reader or the writer.
fn scanned_link_end(by_reader: bool, writer: NodeId, reader: NodeId) -> NodeId
    ensures { result.number ≡ scanned_link_end by_reader writer reader }
{
    if by_reader { reader } else { writer }
}

/// Whether the event carried a word over the link.
pub fn is_transfer_over_link(made: &MadeEvent, writer: NodeId, reader: NodeId) -> bool
    ensures { result ≡ is_transfer_over_link writer.number reader.number made.now }
{
    match made {
        MadeEvent::Own { .. } => false,
        MadeEvent::Pass {
            writer: from,
            reader: to,
            ..
        } => from.number == writer.number && to.number == reader.number,
    }
}

// 1 where the event carried a word over the link, else 0.
pub(crate) fn transfers_over_link_by_event(made: &MadeEvent, writer: NodeId, reader: NodeId) -> u32
    ensures one { result ≡ transfers_over_link_by_event writer.number reader.number made.now }
    ensures most { result ≤ 1 }
{
    if is_transfer_over_link(made, writer, reader) {
        1
    } else {
        0
    }
}

/// How many words went from the writer to the reader, of those that are kept. Takes time by the steps of the one that has fewer.
pub fn count_transfers(lab: &Lab, writer: NodeId, reader: NodeId) -> u32
    ensures { result ≡ link_transfer_count lab.now writer.number reader.number }
{
    let end = scanned_link_end(is_shorter(lab, writer, reader), writer, reader);
    let mut words = 0;
    'places: for place in 0..lab.steps(end) {
        match lab.made_event_of_step(end, place) {
            Some(made) => words += transfers_over_link_by_event(&made, writer, reader),
            None => return words,
        }
    }
    words
}

/// How many words went from the writer to the reader right after the newest event, given how many had before. Takes the same time whatever the history is.
pub fn count_transfers_after(
    lab: &Lab,
    before: u32,
    made: &MadeEvent,
    writer: NodeId,
    reader: NodeId,
) -> u32
    requires { link_transfer_count lab.now writer.number reader.number ≡ before + transfers_over_link_by_event writer.number reader.number made.now }
    ensures { result ≡ link_transfer_count lab.now writer.number reader.number }
{
    // No more than the writer's steps, so they can be counted.
    let steps = lab.steps(writer);
    prove!(steps <= u32::MAX);
    before + transfers_over_link_by_event(made, writer, reader)
}

// The word that an event carried over the link, with this number.
fn sent_as(made: &MadeEvent, writer: NodeId, reader: NodeId, number: u32) -> Option<Transfer>
    ensures { option_to_list result ≡ transfer_of_event writer.number reader.number number made.now }
{
    match made {
        MadeEvent::Own { .. } => None,
        MadeEvent::Pass {
            writer: from,
            writer_step,
            reader: to,
            reader_step,
            word,
        } => {
            if from.number == writer.number && to.number == reader.number {
                Some(Transfer {
                    number,
                    writer_step: *writer_step,
                    reader_step: *reader_step,
                    word: *word,
                })
            } else {
                None
            }
        }
    }
}

impl TransferIter {
    ghost use Rattle.std.specs.Prelude.{◌≡◌, ◌++◌, [], option_to_list, IfNone};
    ghost use Rattle.ga_lab.specs.Machine.{MachineState};
    ghost use Rattle.ga_scheduler.specs.Words.{link_transfers, unlisted_transfers};

    /// All words from the writer to the reader, of which none is listed yet.
    pub fn new(writer: NodeId, reader: NodeId) -> Self
        ensures { (s : MachineState) → unlisted_transfers s result ≡ link_transfers s writer.number reader.number }
    {
        TransferIter {
            writer,
            reader,
            by_reader: false,
            place: 0,
            before: 0,
        }
    }

    // Whether the reader's steps are to be read: at first where they are fewer than the writer's, then as before.
    #[tactic(auto, using(crate::proofs::WordCounts::at_first))]
    fn reads_reader(&self, lab: &Lab) -> bool
        ensures { unlisted_transfers lab.now (record self.now { by_reader = result }) ≡ unlisted_transfers lab.now self.now }
    {
        if self.place == 0 {
            is_shorter(lab, self.writer, self.reader)
        } else {
            self.by_reader
        }
    }

    /// The next word; none if all are listed. The time is linear in the number of steps between the words, of the writer or of
    /// the reader: of the one that had fewer at the first word.
    pub fn next(&mut self, lab: &Lab) -> Option<Transfer>
        ensures word { unlisted_transfers lab.now self.old ≡ option_to_list result ++ unlisted_transfers lab.now self.new }
        ensures end { IfNone result (unlisted_transfers lab.now self.old ≡ []) }
    {
        let (writer, reader, before) = (self.writer, self.reader, self.before);
        let by_reader = self.reads_reader(lab);
        let end = scanned_link_end(by_reader, writer, reader);
        let steps = lab.steps(end);
        for place in self.place..steps {
            match lab.made_event_of_step(end, place) {
                Some(made) => {
                    if let Some(sent) = sent_as(&made, writer, reader, before + 1) {
                        *self = TransferIter {
                            writer,
                            reader,
                            by_reader,
                            place: place + 1,
                            before: before + 1,
                        };
                        return Some(sent);
                    }
                }
                None => return None,
            }
        }
        None
    }
}
