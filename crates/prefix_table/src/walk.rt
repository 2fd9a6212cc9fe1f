//! One walk of the whole trie: a node's own entry comes first, then those of its lower half, then those of its upper
//! half.

ghost use Rattle.std.specs.Prelude.{◌≡◌, ◌<◌, ◌++◌, [], length, IfOk, OnOk};
ghost use Rattle.std.specs.Option.{IfSome};
ghost use Rattle.std.specs.FinMap as map;
ghost use Rattle.prefix_table.specs.Tables.{all_seen};
ghost use Rattle.prefix_table.specs.Trie.{IsTrie, entries_below, entry_or_not, prefix_at, place_at, places_in};
ghost use Rattle.prefix_table.specs.Values.{ArePlaced, with_values};

use crate::gather::add;
use crate::node::{Node, NodeId, child_below, place_of, prefix_of};
use net_prefix::Prefix;
use std::alloc::{AllocError, Global};

/// Adds the entry of a node, if it has a value.
fn add_own<'a, V>(
    entries: &mut Vec<(Prefix, &'a V)>,
    nodes: &[Node],
    values: &'a [V],
    at: NodeId,
) -> Result<(), AllocError>
    requires trie { IsTrie nodes.now }
    requires placed { ArePlaced values.now (places_in nodes.now) }
    requires here { at.0 < length nodes.now }
    ensures { OnOk result
        (all_seen entries.new.items ≡ all_seen entries.old.items ++ with_values values.now
        (entry_or_not (prefix_at nodes.now at.0) (place_at nodes.now at.0) [])) }
{
    match place_of(nodes, at) {
        Some(place) => add(entries, (prefix_of(nodes, at), &values[place])),
        None => Ok(()),
    }
}

/// Adds the entries of the nodes that a node covers, if there is that node.
fn add_below<'a, V>(
    entries: &mut Vec<(Prefix, &'a V)>,
    nodes: &[Node],
    values: &'a [V],
    at: Option<NodeId>,
) -> Result<(), AllocError>
    requires trie { IsTrie nodes.now }
    requires placed { ArePlaced values.now (places_in nodes.now) }
    requires here { IfSome at (λ node. node.0 < length nodes.now) }
    ensures { OnOk result
        (all_seen entries.new.items ≡ all_seen entries.old.items ++ with_values values.now
        (entries_below nodes.now at)) }
{
    let Some(at) = at else {
        return Ok(());
    };
    add_own(entries, nodes, values, at)?;
    add_below(entries, nodes, values, child_below(nodes, at, false))?;
    add_below(entries, nodes, values, child_below(nodes, at, true))
}

/// The node that covers all others.
fn root(nodes: &[Node]) -> Option<NodeId>
    requires { IsTrie nodes.now }
    ensures here { IfSome result (λ node. node.0 < length nodes.now) }
    ensures all { entries_below nodes.now result ≡ map.entries (places_in nodes.now) }
{
    if nodes.is_empty() {
        None
    } else {
        Some(NodeId(0))
    }
}

/// References to all values, each with its prefix.
pub(crate) fn refer_to<'a, V>(
    alloc: Global,
    nodes: &[Node],
    values: &'a [V],
) -> Result<Vec<(Prefix, &'a V)>, AllocError>
    requires trie { IsTrie nodes.now }
    requires placed { ArePlaced values.now (places_in nodes.now) }
    ensures { IfOk result (λ entries. all_seen entries.items ≡ with_values values.now
        (map.entries (places_in nodes.now))) }
{
    let mut entries = Vec::with_capacity(alloc, values.len())?;
    add_below(&mut entries, nodes, values, root(nodes))?;
    Ok(entries)
}
