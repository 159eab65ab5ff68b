//! Requests packed into groups.

ghost use Rattle.std.specs.Prelude.{◌≡◌, ℕ, [], ◌∷◌, ◌++◌, List, IsTrue, true, IfOk, IfErr, OnOk, map, slice_index_or};
ghost use Rattle.ga_parser.specs.declared.item.LocatedRequest.{LocatedRequest};
ghost use Rattle.ga_source.specs.Reading.{spot_after_request, item_fits_at_spot as fits_of, first_spot_of_cell as begin_of};
ghost use Rattle.ga_parser.specs.declared.fault.SourceFaultCause.TheVariants.{Memory};
ghost use Rattle.ga_parser.specs.declared.item.Operand.TheVariants.{Number};
ghost use Rattle.ga_parser.specs.declared.item.AssemblyRequest.{AssemblyRequest as RequestOf};
ghost use Rattle.ga_source.specs.Made.{requested_cells};
ghost use Rattle.ga_source.specs.Cells.{cell_group_content, cell_groups_of_requests};
ghost use Rattle.ga_source.specs.inner.{IsCellGathered, AreItemsGrouped, IsItemBeingPut, IsCellClosed, IsNewCellRequest, FillsSlotsBeforeSpot, HasKnownLabelIfJumpBack, ArePackedRequestsLaidOut, IsItemPending, AreRequestsLaidOut, TakesOneRequest, requests_without_lines, IsDataCellOrGoToAddress, ArePlain, AreCellGroups, ArePlainRequestsPacked};

use super::group::{CellGroup, PackingSpot};
use super::reading::{
    first_spot_of_cell, item_fits_at_spot, next_empty_cell_spot, spot_after_item,
};
use arrayvec::ArrayVec;
use ga_parser::{
    AssemblyItem, AssemblyRequest, LocatedRequest, SourceFault, SourceFaultCause,
    address_with_carry_bit, source_fault_at,
};
use ga_slots::Op;
use std::alloc::{AllocError, Global};
use std::mem;

/// Groups in their order, and the addresses of labels by their numbers.
#[derive(Drop)]
pub(crate) struct PackedNode {
    pub groups: Vec<CellGroup>,
    pub labels: Vec<Option<u32>>,
}

/// The groups so far, and the items of the cell that is being filled.
#[derive(Drop)]
struct Packer {
    groups: Vec<CellGroup>,
    labels: Vec<Option<u32>>,
    filling: ArrayVec<AssemblyItem, 4>,
    /// The line of each item of that cell.
    lines: ArrayVec<u32, 4>,
    /// The line of an `unext` in that cell that isn't allowed there.
    broken: Option<u32>,
    /// Where the walk through the requests is: in the cell that is being filled, after its items.
    spot: PackingSpot,
}

/// The line of an `unext` that has no place in its cell, if it, the last one, jumps to the cell's label.
fn broken_by(before: Option<u32>, line: u32, is_loop: bool) -> Option<u32>
    ensures { result ≡ None → (before ≡ None) × IsTrue is_loop }
{
    match before {
        Some(before) => Some(before),
        None => if is_loop { None } else { Some(line) },
    }
}

impl Packer {
    /// The address of a label, where it is known.
    fn address(&self, label: usize) -> Option<u32>
        ensures { result ≡ slice_index_or self.now.labels.items label None }
    {
        match self.labels.get(label) {
            Some(address) => *address,
            None => None,
        }
    }

    /// Whether the item is no jump back to a label whose address isn't known.
    fn is_known(&self, item: AssemblyItem) -> bool
        ensures known { IsTrue result → HasKnownLabelIfJumpBack self.now.labels.items item }
        ensures data { (n : ℕ) → item ≡ AssemblyItem.Cell (Number n) → IsTrue result }
    {
        match item {
            AssemblyItem::JumpToEarlierLabel(_, label) => self.address(label).is_some(),
            _ => true,
        }
    }

    /// Ends the cell that is being filled.
    fn close(&mut self) -> Result<(), AllocError>
        ensures closed { OnOk result (IsCellClosed self.old self.new) }
        ensures gathered { OnOk result (IsCellGathered self.old self.new) }
        ensures stays { self.old.filling.items ≡ [] → self.old.broken ≡ None → self.new ≡ self.old }
        ensures cell { OnOk result ((n : ℕ) (cells : List (ℕ × ℕ)) → self.old.filling.items ≡ AssemblyItem.Cell (Number n) ∷ [] → self.old.broken ≡ None →
            AreCellGroups cells self.old.groups.items → AreCellGroups (cells ++ (self.old.spot.at, n) ∷ []) self.new.groups.items) }
    {
        if self.filling.is_empty() && self.broken.is_none() {
            return Ok(());
        }
        self.groups.push(CellGroup {
            address: self.spot.at,
            items: mem::replace(&mut self.filling, ArrayVec::new()),
            lines: mem::replace(&mut self.lines, ArrayVec::new()),
            broken: mem::replace(&mut self.broken, None),
        })?;
        Ok(())
    }

    /// Continues in the next cell if the item has no room in this one.
    fn make_room(&mut self, item: AssemblyItem) -> Result<(), AllocError>
        requires { FillsSlotsBeforeSpot self.old }
        ensures cell { OnOk result (FillsSlotsBeforeSpot self.new) }
        ensures stays { fits_of self.old.labels.items self.old.spot item ≡ true → self.new ≡ self.old }
        ensures pending { OnOk result ((before : List LocatedRequest) (line : ℕ) → HasKnownLabelIfJumpBack self.old.labels.items item → AreRequestsLaidOut self.old before →
            IsItemPending self.new (before ++ record { line = line; request = AssemblyRequest.PlaceItem item } ∷ []) item) }
        ensures putting { OnOk result ((before : List LocatedRequest) (line : ℕ) → HasKnownLabelIfJumpBack self.old.labels.items item → AreRequestsLaidOut self.old before → AreItemsGrouped self.old before →
            IsItemBeingPut self.new (before ++ record { line = line; request = AssemblyRequest.PlaceItem item } ∷ []) item line) }
    {
        if item_fits_at_spot(self.labels.as_slice(), self.spot, item) {
            return Ok(());
        }
        self.close()?;
        let next = next_empty_cell_spot(self.spot);
        self.spot = next;
        Ok(())
    }

    /// Puts an item at the spot, where it has room.
    fn add(&mut self, line: u32, item: AssemblyItem) -> Result<(), AllocError>
        requires { FillsSlotsBeforeSpot self.old }
        ensures cell { OnOk result (FillsSlotsBeforeSpot self.new) }
        ensures walked { OnOk result ((asked : List LocatedRequest) → IsItemPending self.old asked item → AreRequestsLaidOut self.new asked) }
        ensures grouped { OnOk result ((asked : List LocatedRequest) → IsItemBeingPut self.old asked item line → AreItemsGrouped self.new asked) }
        ensures packed { OnOk result ((n : ℕ) (requests : List RequestOf) → item ≡ AssemblyItem.Cell (Number n) → ArePlainRequestsPacked self.old requests →
            ArePlainRequestsPacked self.new (requests ++ AssemblyRequest.PlaceItem item ∷ [])) }
    {
        self.filling.push(item);
        let _fits = self.lines.try_push(line);
        let next = spot_after_item(self.spot, item);
        if next.slot == 0 {
            self.close()?;
            self.spot = next;
            return Ok(());
        }
        self.spot = next;
        Ok(())
    }

    /// Whether the cell that is being filled is the label's, and has no literal.
    fn is_loop(&self, label: usize) -> bool
        ensures { IsTrue result → slice_index_or self.now.labels.items label None ≡ Some self.now.spot.at }
    {
        for item in self.filling.as_slice() {
            if let AssemblyItem::Literal(_) = item {
                return false;
            }
        }
        !self.filling.is_empty() && self.address(label) == Some(self.spot.at)
    }

    /// Takes an item.
    fn put(&mut self, asked: LocatedRequest, item: AssemblyItem) -> Result<(), SourceFault<'static>>
        requires cell { FillsSlotsBeforeSpot self.old }
        requires put { asked.request ≡ AssemblyRequest.PlaceItem item }
        ensures taken { OnOk result (TakesOneRequest self.old self.new asked) }
        ensures packed { OnOk result ((n : ℕ) (requests : List RequestOf) → item ≡ AssemblyItem.Cell (Number n) → ArePlainRequestsPacked self.old requests →
            ArePlainRequestsPacked self.new (requests ++ AssemblyRequest.PlaceItem item ∷ [])) }
        ensures refused { IfErr result (λ fault. (n : ℕ) → item ≡ AssemblyItem.Cell (Number n) → fault.cause ≡ Memory) }
    {
        if !self.is_known(item) {
            return Err(source_fault_at(asked.line, SourceFaultCause::UnmatchedControlWord));
        }
        self.make_room(item)?;
        self.add(asked.line, item)?;
        Ok(())
    }

    /// Takes an `unext` to a label.
    fn unext(&mut self, asked: LocatedRequest, label: usize) -> Result<(), SourceFault<'static>>
        requires cell { FillsSlotsBeforeSpot self.old }
        requires unext { asked.request ≡ AssemblyRequest.Unext label }
        ensures { OnOk result (TakesOneRequest self.old self.new asked) }
    {
        let is_loop = self.is_loop(label);
        let broken = broken_by(self.broken, asked.line, is_loop);
        self.broken = broken;
        self.add(asked.line, AssemblyItem::Opcode(Op::Unext))?;
        Ok(())
    }

    /// Takes the place of a label.
    fn mark(&mut self, asked: LocatedRequest, label: usize) -> Result<(), SourceFault<'static>>
        requires cell { FillsSlotsBeforeSpot self.old }
        requires mark { asked.request ≡ AssemblyRequest.MarkLabel label }
        ensures { OnOk result (TakesOneRequest self.old self.new asked) }
    {
        self.close()?;
        let next = next_empty_cell_spot(self.spot);
        self.spot = next;
        if label >= self.labels.len() {
            return Err(source_fault_at(asked.line, SourceFaultCause::UnmatchedControlWord));
        }
        if self.labels[label].is_some() {
            return Err(source_fault_at(asked.line, SourceFaultCause::LabelTwice));
        }
        self.labels[label] = Some(self.spot.at);
        Ok(())
    }

    /// Ends the cell, and continues in the one at a spot.
    fn go(&mut self, asked: LocatedRequest, spot: PackingSpot) -> Result<(), SourceFault<'static>>
        requires cell { FillsSlotsBeforeSpot self.old }
        requires begin { spot.slot ≡ 0 }
        requires fills { IsNewCellRequest asked.request }
        requires after { spot_after_request self.old.labels.items self.old.spot asked.request ≡ spot }
        ensures taken { OnOk result (TakesOneRequest self.old self.new asked) }
        ensures packed { OnOk result ((address : ℕ) (requests : List RequestOf) → spot ≡ begin_of address → ArePlainRequestsPacked self.old requests →
            ArePlainRequestsPacked self.new (requests ++ AssemblyRequest.GoToAddress address ∷ [])) }
        ensures refused { IfErr result (λ fault. fault.cause ≡ Memory) }
    {
        self.close()?;
        self.spot = spot;
        Ok(())
    }

    fn take(&mut self, asked: LocatedRequest) -> Result<(), SourceFault<'static>>
        requires { FillsSlotsBeforeSpot self.old }
        ensures taken { OnOk result (TakesOneRequest self.old self.new asked) }
        ensures packed { OnOk result ((requests : List RequestOf) → IsDataCellOrGoToAddress asked.request → ArePlainRequestsPacked self.old requests →
            ArePlainRequestsPacked self.new (requests ++ asked.request ∷ [])) }
        ensures refused { IfErr result (λ fault. IsDataCellOrGoToAddress asked.request → fault.cause ≡ Memory) }
    {
        let next = next_empty_cell_spot(self.spot);
        match asked.request {
            AssemblyRequest::PlaceItem(item) => self.put(asked, item),
            AssemblyRequest::Unext(label) => self.unext(asked, label),
            AssemblyRequest::MarkLabel(label) => self.mark(asked, label),
            AssemblyRequest::BeginNewCell => self.go(asked, next),
            AssemblyRequest::GoToAddress(address) => self.go(asked, first_spot_of_cell(address)),
            AssemblyRequest::Carry(is_set) => self.go(
                asked,
                first_spot_of_cell(address_with_carry_bit(is_set, next.at)),
            ),
        }
    }
}

/// Packs requests, which name `labels` labels.
pub(crate) fn pack(
    alloc: Global,
    asked: &[LocatedRequest],
    labels: usize,
) -> Result<PackedNode, SourceFault<'static>>
    ensures laid_out { IfOk result (λ packed. ArePackedRequestsLaidOut packed asked.now) }
    ensures groups { IfOk result (λ packed. map cell_group_content packed.groups.items ≡ cell_groups_of_requests packed.labels.items asked.now) }
    ensures cells { IfOk result (λ packed. ArePlain (requests_without_lines asked.now) → AreCellGroups (requested_cells 0 (requests_without_lines asked.now)) packed.groups.items) }
    ensures refused { IfErr result (λ fault. ArePlain (requests_without_lines asked.now) → fault.cause ≡ Memory) }
{
    let mut packer = Packer {
        groups: Vec::new(alloc),
        labels: vec![in alloc; None; labels]?,
        filling: ArrayVec::new(),
        lines: ArrayVec::new(),
        broken: None,
        spot: first_spot_of_cell(0),
    };
    for one in asked {
        packer.take(*one)?;
    }
    packer.close()?;
    Ok(PackedNode {
        groups: packer.groups,
        labels: packer.labels,
    })
}
