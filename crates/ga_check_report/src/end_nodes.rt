//! The names of the nodes of an end, by what they do there.

ghost use Rattle.std.specs.Prelude.{◌≡◌, ◌≤◌, ◌+◌, ◌++◌, false, codes, slice_index_or};
ghost use Rattle.ga_explorer_text.specs.Waiting.{name_text_of_node};
ghost use Rattle.arrayvec.specs.ArrayVec.{array_vec_len};
ghost use Rattle.ga_check_report.specs.EndTexts.{node_end_at, stopped_node_text, optional_node_name_text, can_node_continue, waits_to_read, waits_to_write, is_node_end_in_part, stopped_nodes_text, end_part_names_text, unclean_node_names_text};

use arrayvec::ArrayVec;
use ga_grid::NodeId;
use ga_state_ends::NodeEnd;
use ga_text::{MAX_NUMBER_DIGITS, NODE_NAME_BYTES, push_node, push_number, push_text};

/// The maximum number of bytes of a node that stopped.
const STOP_ROOM: usize = b", ".len() + NODE_NAME_BYTES + b" stop ".len() + MAX_NUMBER_DIGITS;

pub(crate) const STOPS_ROOM: usize = 144 * STOP_ROOM;

/// The nodes that stopped.
pub(crate) type Stops = ArrayVec<u8, STOPS_ROOM>;

/// The number of bytes of a node with a blank in front of it.
const NAME_ROOM: usize = b" 717".len();

pub(crate) const NAMES_ROOM: usize = 144 * NAME_ROOM;

/// Some nodes, each with a blank in front of it.
pub(crate) type Names = ArrayVec<u8, NAMES_ROOM>;

/// The nodes that do the same at an end, but for those that stopped and those that wait for code.
#[derive(Clone, Copy, PartialEq, Eq, Debug)]
pub(crate) enum EndPart {
    /// They can always make another step.
    Continuing,
    /// They wait to read.
    Reading,
    /// They wait to write.
    Writing,
}

/// What a node does at an end.
pub(crate) fn node_end_at(nodes: &[NodeEnd; 144], node: NodeId) -> NodeEnd
    ensures { result ≡ node_end_at nodes.now node.number }
{
    nodes[node.index()]
}

/// The nodes that stopped, each after a comma.
pub(crate) fn stops_among(nodes: &[NodeEnd; 144]) -> Stops
    ensures { result.items ≡ stopped_nodes_text nodes.now }
{
    let mut out = ArrayVec::new();
    'nodes: for number in 0..144u8 {
        let node = NodeId::new(number);
        push_stop(&mut out, node_end_at(nodes, node), node);
    }
    out
}

/// Adds a node that stopped.
fn push_stop(out: &mut Stops, end: NodeEnd, node: NodeId)
    requires { array_vec_len out.old + STOP_ROOM ≤ STOPS_ROOM }
    ensures text { out.new.items ≡ out.old.items ++ stopped_node_text end node.number }
    ensures len { array_vec_len out.new ≤ array_vec_len out.old + STOP_ROOM }
{
    if let NodeEnd::Stopped(code) = end {
        push_text(out, b", ");
        push_node(out, node);
        push_text(out, b" stop ");
        push_number(out, u64::from(code));
    }
}

/// The nodes of a part.
pub(crate) fn nodes_of(part: EndPart, nodes: &[NodeEnd; 144]) -> Names
    ensures { result.items ≡ end_part_names_text part nodes.now }
{
    let mut out = ArrayVec::new();
    'nodes: for number in 0..144u8 {
        let node = NodeId::new(number);
        push_name_if(
            &mut out,
            is_node_end_in_part(part, node_end_at(nodes, node)),
            node,
        );
    }
    out
}

/// Whether a node that does this is one of the part.
fn is_node_end_in_part(part: EndPart, end: NodeEnd) -> bool
    ensures { result ≡ is_node_end_in_part part end }
{
    match part {
        EndPart::Continuing => can_node_continue(end),
        EndPart::Reading => waits_to_read(end),
        EndPart::Writing => waits_to_write(end),
    }
}

fn can_node_continue(end: NodeEnd) -> bool
    ensures { result ≡ can_node_continue end }
{
    match end {
        NodeEnd::KeepsRunning => true,
        NodeEnd::Idle => false,
        NodeEnd::Reads => false,
        NodeEnd::Writes => false,
        NodeEnd::Stopped(_) => false,
    }
}

fn waits_to_read(end: NodeEnd) -> bool
    ensures { result ≡ waits_to_read end }
{
    match end {
        NodeEnd::KeepsRunning => false,
        NodeEnd::Idle => false,
        NodeEnd::Reads => true,
        NodeEnd::Writes => false,
        NodeEnd::Stopped(_) => false,
    }
}

fn waits_to_write(end: NodeEnd) -> bool
    ensures { result ≡ waits_to_write end }
{
    match end {
        NodeEnd::KeepsRunning => false,
        NodeEnd::Idle => false,
        NodeEnd::Reads => false,
        NodeEnd::Writes => true,
        NodeEnd::Stopped(_) => false,
    }
}

/// The nodes that make no further step and don't rest cleanly.
pub(crate) fn unclean_among(unclean: &[bool; 144]) -> Names
    ensures { result.items ≡ unclean_node_names_text unclean.now }
{
    let mut out = ArrayVec::new();
    'nodes: for number in 0..144u8 {
        let node = NodeId::new(number);
        push_name_if(&mut out, is_unclean(unclean, node), node);
    }
    out
}

/// Whether the node is marked.
pub(crate) fn is_unclean(unclean: &[bool; 144], node: NodeId) -> bool
    ensures { result ≡ slice_index_or unclean.now node.number false }
{
    unclean[node.index()]
}

/// Adds a blank and a node, if it is to be named.
fn push_name_if(out: &mut Names, is_named: bool, node: NodeId)
    requires { array_vec_len out.old + NAME_ROOM ≤ NAMES_ROOM }
    ensures text { out.new.items ≡ out.old.items ++ optional_node_name_text is_named node.number }
    ensures len { array_vec_len out.new ≤ array_vec_len out.old + NAME_ROOM }
{
    if is_named {
        push_name(out, node);
    }
}

/// Adds a blank and a node.
fn push_name(out: &mut Names, node: NodeId)
    requires { array_vec_len out.old + NAME_ROOM ≤ NAMES_ROOM }
    ensures text { out.new.items ≡ out.old.items ++ (codes " " ++ name_text_of_node node.number) }
    ensures len { array_vec_len out.new ≤ array_vec_len out.old + NAME_ROOM }
{
    push_text(out, b" ");
    push_node(out, node);
}
