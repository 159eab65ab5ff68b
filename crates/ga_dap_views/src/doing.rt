//! What a node does, as a person reads it.

ghost use Rattle.std.specs.Prelude.{◌≡◌, ◌++◌, codes, string_bytes, IfOk, OnOk};
ghost use Rattle.ga_node.specs.Record.{record_of_node};
ghost use Rattle.ga_lab.specs.Machine.{chip_of_machine};
ghost use Rattle.ga_dap_views.specs.Activity.{side_name, append_side_name, side_names, node_stop_text, wait_activity_text, node_name_and_activity_text};

use crate::texts::add_node;
use ga_grid::NodeId;
use ga_lab::Lab;
use ga_node::{Node, Wait};
use ga_ports::{PortSet, Side};
use std::alloc::{AllocError, Global};

/// The name of a side.
pub(crate) fn side_name(side: Side) -> &'static str
    ensures { result.now ≡ side_name side }
{
    match side {
        Side::Right => "right",
        Side::Down => "down",
        Side::Left => "left",
        Side::Up => "up",
    }
}

/// Names a side, if the set has it, after those already named.
fn add_side(text: &mut String, sides: PortSet, side: Side) -> Result<(), AllocError>
    ensures { OnOk result (string_bytes text.new ≡ append_side_name sides side (string_bytes text.old)) }
{
    if !sides.has(side) {
        return Ok(());
    }
    if !text.is_empty() {
        text.push_str(" or ")?;
    }
    text.push_str(side_name(side))
}

/// The names of a set's sides.
fn names_of(alloc: Global, sides: PortSet) -> Result<String, AllocError>
    ensures { IfOk result (λ text. string_bytes text ≡ side_names sides) }
{
    let mut text = String::new(alloc);
    add_side(&mut text, sides, Side::Right)?;
    add_side(&mut text, sides, Side::Down)?;
    add_side(&mut text, sides, Side::Left)?;
    add_side(&mut text, sides, Side::Up)?;
    Ok(text)
}

fn words_of_stop(stop: u8) -> &'static str
    ensures { result.now ≡ node_stop_text stop }
{
    match stop {
        0 => "runs",
        1 => "stopped: a write to several ports",
        2 => "stopped: an address that names nothing",
        _ => "stopped",
    }
}

/// The text before the names of sides, and these.
fn waiting(alloc: Global, before: &str, sides: PortSet) -> Result<String, AllocError>
    ensures { IfOk result (λ text. string_bytes text ≡ before.now ++ side_names sides) }
{
    let names = names_of(alloc, sides)?;
    format!(in alloc; "{before}{names}")
}

/// What a node does.
pub(crate) fn node_activity(alloc: Global, node: &Node) -> Result<String, AllocError>
    ensures { IfOk result (λ text. string_bytes text ≡ wait_activity_text (record_of_node node.now).wait (record_of_node node.now).stop) }
{
    match node.wait() {
        Wait::Nothing => String::from_str(alloc, words_of_stop(node.stop())),
        Wait::Fetch(sides) => waiting(alloc, "waits for code from ", sides),
        Wait::Read(sides) => waiting(alloc, "waits to read from ", sides),
        Wait::Write(side) => {
            let name = side_name(side);
            format!(in alloc; "waits to write to {name}")
        }
    }
}

/// The name of a node and what it does, after a text.
pub fn thread_title(
    alloc: Global,
    before: &str,
    lab: &Lab,
    node: NodeId,
) -> Result<String, AllocError>
    ensures { IfOk result (λ text. string_bytes text ≡ before.now ++ node_name_and_activity_text (chip_of_machine lab.now) node.number) }
{
    let does = node_activity(alloc, lab.node(node))?;
    let mut text = String::from_str(alloc, before)?;
    add_node(&mut text, node)?;
    text.push_str(" ")?;
    text.push_str(does.as_str())?;
    Ok(text)
}
