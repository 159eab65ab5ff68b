//! The rows of the nodes of an end.

ghost use Rattle.std.specs.Prelude.{◌≡◌, ◌+◌, ◌-◌, [], map, false, slice_index_or, IfSome, IfNone};
ghost use Rattle.ga_json.specs.Values.{item, no_items};
ghost use Rattle.ga_state_ends.specs.declared.end_kind.NodeEnd.TheVariants.{Stopped};
ghost use Rattle.ga_json.specs.Fields.{named_field_value, json_object};
ghost use Rattle.ga_check_report.specs.EndTexts.{node_end_at};
ghost use Rattle.ga_check_report.specs.EndJson.{is_idle_node_end, is_listed_node_end, node_action_fields, node_end_fields, node_row_fields, end_node_rows};

use crate::end_nodes::{is_unclean, node_end_at};
use ga_grid::NodeId;
use ga_json::{Field, RowCursor, RowFields, row_fields};
use ga_state_ends::{EndKind, NodeEnd};

/// The rows of the nodes of an end, but for those that are idle, in the order of their numbers.
#[derive(Drop)]
pub(crate) struct NodeRows<'a> {
    kind: &'a EndKind,
    /// The number of the first node whose row isn't taken yet.
    next: u8,
}

impl<'a> NodeRows<'a> {
    /// The rows of all nodes.
    pub(crate) fn new(kind: &'a EndKind) -> Self
        ensures kind { result.kind.now ≡ kind.now }
        ensures first { result.next ≡ 0 }
    {
        NodeRows { kind, next: 0 }
    }
}

impl<'a> RowCursor<'a> for NodeRows<'a> {
    ghost left = { λ rows. end_node_rows rows.kind.now rows.next (144 - rows.next) };

    fn next(&mut self) -> Option<RowFields<'a>> {
        match next_listed(self.kind, self.next) {
            Some(node) => {
                self.next = node.number + 1;
                Some(node_fields(self.kind, node))
            }
            None => {
                self.next = 144;
                None
            }
        }
    }
}

/// The first node from this number on that has a row.
fn next_listed(kind: &EndKind, from: u8) -> Option<NodeId>
    ensures there { IfSome result (λ node. end_node_rows kind.now from (144 - from)
        ≡ item (json_object (node_row_fields kind.now node.number)) (end_node_rows kind.now (node.number + 1) (144 - (node.number + 1)))) }
    ensures none { IfNone result (end_node_rows kind.now from (144 - from) ≡ no_items) }
{
    'nodes: for number in from..144 {
        let node = NodeId::new(number);
        if is_listed(kind, node) {
            return Some(node);
        }
    }
    None
}

/// Whether the node has a row.
fn is_listed(kind: &EndKind, node: NodeId) -> bool
    ensures { result ≡ is_listed_node_end (node_end_at kind.now.nodes node.number) (slice_index_or kind.now.unclean node.number false) }
{
    is_listed_node_end(
        node_end_at(&kind.nodes, node),
        is_unclean(&kind.unclean, node),
    )
}

/// Whether a node that does this has a row: it isn't idle, or it isn't clean.
fn is_listed_node_end(end: NodeEnd, is_unclean: bool) -> bool
    ensures { result ≡ is_listed_node_end end is_unclean }
{
    !is_idle_node_end(end) || is_unclean
}

fn is_idle_node_end(end: NodeEnd) -> bool
    ensures { result ≡ is_idle_node_end end }
{
    match end {
        NodeEnd::KeepsRunning => false,
        NodeEnd::Idle => true,
        NodeEnd::Reads => false,
        NodeEnd::Writes => false,
        NodeEnd::Stopped(_) => false,
    }
}

/// The fields of the row of a node.
fn node_fields<'a>(kind: &EndKind, node: NodeId) -> RowFields<'a>
    ensures { map named_field_value result.items ≡ node_row_fields kind.now node.number }
{
    let end = node_end_at(&kind.nodes, node);
    let unclean = is_unclean(&kind.unclean, node);
    match end {
        NodeEnd::KeepsRunning => plain_fields(node, b"goes on", unclean),
        NodeEnd::Idle => plain_fields(node, b"awaits code", unclean),
        NodeEnd::Reads => plain_fields(node, b"reads", unclean),
        NodeEnd::Writes => plain_fields(node, b"writes", unclean),
        NodeEnd::Stopped(code) => stopped_fields(node, code, unclean),
    }
}

/// The fields of the row of a node that isn't stopped.
fn plain_fields<'a>(node: NodeId, does: &'a [u8], unclean: bool) -> RowFields<'a>
    ensures { map named_field_value result.items ≡ node_action_fields node.number does.now unclean [] }
{
    row_fields(&[
        Field::node(b"node", node),
        Field::text(b"does", does),
        Field::flag(b"clean", !unclean),
    ])
}

/// The fields of the row of a node that is stopped.
fn stopped_fields<'a>(node: NodeId, code: u8, unclean: bool) -> RowFields<'a>
    ensures { map named_field_value result.items ≡ node_end_fields node.number (Stopped code) unclean }
{
    row_fields(&[
        Field::node(b"node", node),
        Field::text(b"does", b"stop"),
        Field::flag(b"clean", !unclean),
        Field::number(b"stop", u64::from(code)),
    ])
}
