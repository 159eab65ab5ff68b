//! The numbers by which a client names what it is shown. Each number determines what it names.

ghost use Rattle.std.specs.Prelude.{◌≡◌, ◌≢◌, ◌<◌, ◌≤◌, ◌^◌, ℕ, IfSome, IfNone};
ghost use Rattle.ga_dap_views.specs.declared.scope.Scope.{Scope as ScopeKind};
ghost use Rattle.ga_dap_views.specs.Numbers.{thread_id, frame_id, scope_index, variables_reference, chip_address};

use crate::scope::Scope;
use ga_grid::{CHIP_NODE_COUNT, NodeId};

/// The thread of a node.
pub fn thread_id(node: NodeId) -> u64
    ensures { result ≡ thread_id node.number }
{
    1000 + u64::from(node.decimal_name())
}

/// The node of a thread, where there is one.
pub fn node_of_thread(thread: u64) -> Option<NodeId>
    ensures found { IfSome result (λ node. thread_id node.number ≡ thread) }
    ensures none { IfNone result ((n : ℕ) → n < 144 → thread_id n ≢ thread) }
{
    let decimal_name = u32::try_from(thread.checked_sub(1000)?).ok()?;
    NodeId::from_decimal_name(decimal_name)
}

/// A frame of a node, by its level: the number of frames above it.
pub fn frame_id(node: NodeId, level: u8) -> u64
    requires { level < 16 }
    ensures { result ≡ frame_id node.number level }
{
    1 + 16 * u64::from(node.number) + u64::from(level)
}

/// The node of a frame and its level, the number of frames above it; none if the number is no frame's.
pub fn node_of_frame(frame: u64) -> Option<(NodeId, u8)>
    ensures found { IfSome result (λ at. frame_id at.0.number at.1 ≡ frame) }
    ensures level { IfSome result (λ at. at.1 < 16) }
    ensures none { IfNone result ((n level : ℕ) → n < 144 → level < 16 → frame_id n level ≢ frame) }
{
    let place = frame.checked_sub(1)?;
    if place >= 16 * CHIP_NODE_COUNT as u64 {
        return None;
    }
    Some((NodeId::new((place / 16) as u8), (place % 16) as u8))
}

fn number_of_scope(scope: Scope) -> u64
    ensures value { result ≡ scope_index scope }
    ensures small { result < 8 }
{
    match scope {
        Scope::Registers => 0,
        Scope::DataStackScope => 1,
        Scope::ReturnStackScope => 2,
        Scope::Links => 3,
        Scope::Ram => 4,
        Scope::Rom => 5,
    }
}

/// The scope of a number, where there is one.
pub(crate) fn scope_of_number(number: u64) -> Option<Scope>
    ensures found { IfSome result (λ scope. scope_index scope ≡ number) }
    ensures none { IfNone result ((scope : ScopeKind) → scope_index scope ≢ number) }
{
    match number {
        0 => Some(Scope::Registers),
        1 => Some(Scope::DataStackScope),
        2 => Some(Scope::ReturnStackScope),
        3 => Some(Scope::Links),
        4 => Some(Scope::Ram),
        5 => Some(Scope::Rom),
        _ => None,
    }
}

/// The variables of a node's scope.
pub fn variables_reference(node: NodeId, scope: Scope) -> u64
    ensures { result ≡ variables_reference node.number scope }
{
    1 + 8 * u64::from(node.number) + number_of_scope(scope)
}

/// The node and the scope whose variables a reference is, where there are.
pub fn resolve_variables_reference(reference: u64) -> Option<(NodeId, Scope)>
    ensures found { IfSome result (λ at. variables_reference at.0.number at.1 ≡ reference) }
    ensures none { IfNone result ((n : ℕ) (scope : ScopeKind) → n < 144 → variables_reference n scope ≢ reference) }
{
    let place = reference.checked_sub(1)?;
    if place >= 8 * CHIP_NODE_COUNT as u64 {
        return None;
    }
    let scope = scope_of_number(place % 8)?;
    Some((NodeId::new((place / 8) as u8), scope))
}

/// The address of a node's cell on the chip.
pub fn chip_address(node: NodeId, cell: u8) -> u32
    ensures value { result ≡ chip_address node.number cell }
    ensures in_range { result < 2 ^ 24 }
{
    let decimal_name = node.decimal_name();
    4096 * (decimal_name / 100 * 256 + decimal_name / 10 % 10 * 16 + decimal_name % 10)
        + u32::from(cell)
}

/// The node and the cell of an address of the chip, where there are.
pub fn cell_at_chip_address(address: u64) -> Option<(NodeId, u8)>
    ensures found { IfSome result (λ at. chip_address at.0.number at.1 ≡ address) }
    ensures none { IfNone result ((n cell : ℕ) → n < 144 → cell < 256 → chip_address n cell ≢ address) }
{
    let number = u32::try_from(address).ok()?;
    let (digits, cell) = (number / 4096, number % 4096);
    let (high, middle, low) = (digits / 256, digits / 16 % 16, digits % 16);
    if middle > 9 || low > 9 {
        return None;
    }
    let node = NodeId::from_decimal_name(100 * high + 10 * middle + low)?;
    Some((node, u8::try_from(cell).ok()?))
}
