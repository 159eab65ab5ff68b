//! A chip that comes to rest before its orders are run.

ghost use Rattle.std.specs.Prelude.{◌≡◌, ◌==◌, OnOk, is_none};
ghost use Rattle.ga_ports.specs.Address.{address_target};
ghost use Rattle.ga_node.specs.Record.{record_of_node};
ghost use Rattle.ga_node.specs.Table.{refusal_of_own_event};
ghost use Rattle.ga_lab.specs.Machine.{state_after_step};
ghost use Rattle.ga_check_report.specs.Settled.{is_port_target, fetches_from_ports_next, state_after_settling_node, state_after_settling, check_start_state};

use ga_grid::NodeId;
use ga_lab::{Lab, LabFault};
use ga_node::{Node, NodePlace};
use ga_ports::{AddressTarget, classify_address};
use std::alloc::AllocError;

/// Where `settles` is set, makes the event of each node by which it comes to wait for code, where that is its next, in the order of
/// their numbers. Where the lab's limit is reached it makes no more.
///
/// # Errors
/// Out of memory; some of the events may be kept then.
pub fn settle_idle_nodes(lab: &mut Lab, settles: bool) -> Result<(), AllocError>
    ensures ok { OnOk result (lab.new ≡ check_start_state settles lab.old) }
{
    if settles { settle_all(lab) } else { Ok(()) }
}

fn settle_all(lab: &mut Lab) -> Result<(), AllocError>
    ensures ok { OnOk result (lab.new ≡ state_after_settling lab.old) }
{
    'nodes: for number in 0..144u8 {
        settle_node(lab, NodeId::new(number))?;
    }
    Ok(())
}

fn settle_node(lab: &mut Lab, node: NodeId) -> Result<(), AllocError>
    ensures ok { OnOk result (lab.new ≡ state_after_settling_node lab.old node) }
{
    if fetches_from_ports_next(lab.node(node)) {
        step(lab, node)
    } else {
        Ok(())
    }
}

/// A step of a node, where it is not refused.
fn step(lab: &mut Lab, node: NodeId) -> Result<(), AllocError>
    ensures ok { OnOk result (lab.new ≡ state_after_step lab.old node) }
{
    match lab.step(node) {
        Ok(_) => Ok(()),
        Err(why) => {
            if why == LabFault::Memory {
                Err(AllocError)
            } else {
                Ok(())
            }
        }
    }
}

/// Whether a node's next event is to wait for code.
fn fetches_from_ports_next(at: &Node) -> bool
    ensures { result ≡ fetches_from_ports_next (record_of_node at.now) }
{
    runs(at) && is_fetch_due(at) && is_port_target(target_of_p(at))
}

fn runs(at: &Node) -> bool
    ensures { result ≡ is_none (refusal_of_own_event (record_of_node at.now)) }
{
    at.own_event_refusal().is_none()
}

#[tactic(auto, unfolding(ga_node::specs::Record::record_of_node))]
fn is_fetch_due(at: &Node) -> bool
    ensures { result ≡ (record_of_node at.now).slot == 4 }
{
    at.get(NodePlace::Slot) == 4
}

/// What a node's P names.
#[tactic(auto, unfolding(ga_node::specs::Record::record_of_node))]
fn target_of_p(at: &Node) -> AddressTarget
    ensures { result ≡ address_target (record_of_node at.now).p }
{
    classify_address(at.get(NodePlace::P))
}

fn is_port_target(target: AddressTarget) -> bool
    ensures { result ≡ is_port_target target }
{
    match target {
        AddressTarget::Ports(_) => true,
        AddressTarget::Ram(_) => false,
        AddressTarget::Rom(_) => false,
        AddressTarget::Io => false,
        AddressTarget::Bad => false,
    }
}
