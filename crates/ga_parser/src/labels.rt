//! The labels of a node while its words are read.

ghost use Rattle.std.specs.Prelude.{◌≡◌, ◌&&◌, not, [], length, map, IfOk, OnOk};
ghost use Rattle.ga_parser.specs.Saying.{has_bytes};
ghost use Rattle.ga_parser.specs.Asking.{ParseState, label_content, known_label_number, label_number, labels_with_added_name, labels_with_added_label, is_placed_label, labels_with_marked_label, refuse_unplaced_label};
ghost use Rattle.ga_parser.specs.inner.Drafting.{Answers};

use super::fault::{SourceFault, SourceFaultCause, source_fault_at};
use std::alloc::{AllocError, Global};
use std::collections::HashMap;
use std::marker::Model;

/// A label of the node, by its name, or one without a name that a control word made.
#[derive(Clone, Copy)]
pub struct Label<'s> {
    /// The label's name, empty where it has none.
    pub name: &'s [u8],
    /// The line that names it first.
    pub line: u32,
    /// Whether its place in the source was met.
    pub is_marked: bool,
}

/// The labels by their numbers, and the numbers by their names.
#[derive(Drop)]
pub(crate) struct Labels<'s> {
    list: Vec<Label<'s>>,
    names: HashMap<&'s [u8], usize>,
}

impl<'s> Model for Labels<'s> {
    ghost use Rattle.std.specs.Prelude.{List, map};
    ghost use Rattle.ga_parser.specs.Asking.{LabelContent, label_content};
    ghost use Rattle.ga_parser.specs.inner.Names.{AreLabelNumbersByName};

    ghost Value = { List LabelContent };

    ghost view = { λ l. map label_content l.list.items };

    ghost invariant = { λ l. AreLabelNumbersByName l.names (map label_content l.list.items) };
}

impl<'s> Labels<'s> {
    #[tactic(auto, using(crate::proofs::Asking::names_none))]
    pub(crate) fn new(alloc: Global) -> Self
        ensures { result ≡ [] }
    {
        Labels {
            list: Vec::new(alloc),
            names: HashMap::new(alloc),
        }
    }

    /// The labels by their numbers.
    pub(crate) fn into_list(self) -> Vec<Label<'s>>
        ensures { map label_content result.items ≡ self.entry }
    {
        let Labels { list, names: _ } = self;
        list
    }

    /// The number of the label with this name, where there is one. An empty name is no label's.
    #[tactic(auto, using(crate::proofs::Asking::is_empty_name, crate::proofs::Asking::found_name))]
    pub(crate) fn find(&self, name: &'s [u8]) -> Option<usize>
        ensures { result ≡ known_label_number self.now name.now }
    {
        if name.is_empty() {
            return None;
        }
        self.names.get(name).copied()
    }

    /// The number of the label with this name; a new one where there is none.
    pub(crate) fn named(&mut self, line: u32, name: &'s [u8]) -> Result<usize, AllocError>
        ensures number { IfOk result (λ label. label ≡ label_number self.old name.now) }
        ensures labels { OnOk result (self.new ≡ labels_with_added_name self.old line name.now) }
    {
        if let Some(label) = self.find(name) {
            return Ok(label);
        }
        let label = self.list.len();
        self.list.push(Label {
            name,
            line,
            is_marked: false,
        })?;
        match self.names.insert(name, label) {
            Ok(_) => Ok(label),
            Err(refused) => {
                self.list.pop();
                Err(refused.into())
            }
        }
    }

    /// A new label without a name.
    #[tactic(auto, using(crate::proofs::Asking::nameless_pushed))]
    pub(crate) fn add_anonymous(&mut self, line: u32, is_marked: bool) -> Result<usize, AllocError>
        ensures number { IfOk result (λ label. label ≡ length self.old) }
        ensures labels { OnOk result (self.new ≡ labels_with_added_label self.old line [] is_marked) }
    {
        let label = self.list.len();
        self.list.push(Label {
            name: &[],
            line,
            is_marked,
        })?;
        Ok(label)
    }

    /// Whether the label's place was met.
    pub(crate) fn is_marked(&self, label: usize) -> bool
        ensures { result ≡ is_placed_label self.now label }
    {
        match self.list.get(label) {
            Some(found) => found.is_marked,
            None => false,
        }
    }

    /// The label's place is met.
    #[tactic(auto, using(crate::proofs::Asking::names_marked, crate::proofs::Asking::marked_view))]
    pub(crate) fn mark_label(&mut self, label: usize)
        ensures { self.new ≡ labels_with_marked_label self.old label }
    {
        if label < self.list.len() {
            self.list[label].is_marked = true;
        }
    }

    /// The first name that no place has.
    #[tactic(auto, using(crate::proofs::Asking::placed_more, crate::proofs::Asking::placed_not, crate::proofs::Asking::placed_all, std::proofs::lemmas::List::drop_all))]
    pub(crate) fn check(&self) -> Result<(), SourceFault<'s>>
        ensures { (now : ParseState) → Answers result (refuse_unplaced_label now self.now) (λ _. now) }
    {
        for label in &self.list {
            if is_unplaced(label) {
                return Err(source_fault_at(label.line, SourceFaultCause::UnknownWord(label.name)));
            }
        }
        Ok(())
    }
}

/// Whether the label has a name and no place.
fn is_unplaced(label: &Label<'_>) -> bool
    ensures { result ≡ (has_bytes label.now.name.now && not label.now.is_marked) }
{
    !label.name.is_empty() && !label.is_marked
}
