//! Ways down the trie, from a node to those below it.

ghost use Rattle.std.specs.Prelude.{◌≡◌, ◌↔◌, ◌<◌, ℕ, length, false, IsTrue};
ghost use Rattle.std.specs.Option.{IfSome, IfNone};
ghost use Rattle.net_prefix.specs.Prefix.{Prefix, Covers};
ghost use Rattle.prefix_table.specs.Tables.{is_after};
ghost use Rattle.prefix_table.specs.Trie.{IsTrie, IsNearer, IsLast, IsClosest, IsCover, IsDeepest, IsLater, IsFirstLater, prefix_at};

use crate::cut::comes_after;
use crate::node::{Node, NodeId, bit, child_below, has_value, prefix_of};
use net_prefix::{MAX_LEN, Prefix};

/// The next node on the way to the prefix.
fn nearer(nodes: &[Node], at: NodeId, prefix: Prefix) -> Option<NodeId>
    requires trie { IsTrie nodes.now }
    requires here { at.0 < length nodes.now }
    requires covers { Covers (prefix_at nodes.now at.0) prefix }
    ensures found { IfSome result (λ next. IsNearer nodes.now prefix at.0 next.0) }
    ensures none { IfNone result (IsLast nodes.now prefix at.0) }
{
    let from = prefix_of(nodes, at);
    if from.len() >= prefix.len() {
        return None;
    }
    match child_below(nodes, at, bit(prefix.addr(), from.len())) {
        None => None,
        Some(next) => {
            if prefix_of(nodes, next).covers(&prefix) {
                Some(next)
            } else {
                None
            }
        }
    }
}

/// The node with the longest prefix that covers this one, from a node on the way to it.
pub(crate) fn closest(nodes: &[Node], at: NodeId, prefix: Prefix) -> NodeId
    requires trie { IsTrie nodes.now }
    requires here { at.0 < length nodes.now }
    requires covers { Covers (prefix_at nodes.now at.0) prefix }
    ensures { IsClosest nodes.now prefix result.0 }
{
    match nearer(nodes, at, prefix) {
        Some(next) => closest(nodes, next, prefix),
        None => at,
    }
}

/// The node with the longest prefix that has a value and covers this one, from a node on the way to it.
pub(crate) fn deepest(nodes: &[Node], at: NodeId, prefix: Prefix) -> Option<NodeId>
    requires trie { IsTrie nodes.now }
    requires here { at.0 < length nodes.now }
    requires covers { Covers (prefix_at nodes.now at.0) prefix }
    ensures found { IfSome result (λ found. IsDeepest nodes.now (prefix_at nodes.now at.0).len prefix found.0) }
    ensures none { IfNone result ((j : ℕ) → IsCover nodes.now (prefix_at nodes.now at.0).len prefix j → ⊥) }
{
    if let Some(next) = nearer(nodes, at, prefix) {
        if let Some(found) = deepest(nodes, next, prefix) {
            return Some(found);
        }
    }
    if has_value(nodes, at) { Some(at) } else { None }
}

/// Whether each prefix that this one covers comes before the other one or is it.
fn is_past(prefix: Prefix, after: Option<Prefix>) -> bool
    ensures { IsTrue result → (q : Prefix) → Covers prefix q → is_after after q ≡ false }
{
    match after {
        None => false,
        Some(other) => {
            let shift = MAX_LEN - prefix.len();
            u64::from(other.addr().0) >> shift > u64::from(prefix.addr().0) >> shift
        }
    }
}

/// The first node with a value that comes after the prefix, of those that a node covers.
pub(crate) fn first_later(nodes: &[Node], at: NodeId, after: Option<Prefix>) -> Option<NodeId>
    requires trie { IsTrie nodes.now }
    requires here { at.0 < length nodes.now }
    ensures found { IfSome result (λ found. IsFirstLater nodes.now (prefix_at nodes.now at.0) after found.0) }
    ensures none { IfNone result ((j : ℕ) → IsLater nodes.now (prefix_at nodes.now at.0) after j → ⊥) }
{
    if skips(nodes, at, after) {
        return None;
    }
    if is_later(nodes, at, after) {
        return Some(at);
    }
    if let Some(low) = child_below(nodes, at, false) {
        if let Some(found) = first_later(nodes, low, after) {
            return Some(found);
        }
    }
    first_later(nodes, child_below(nodes, at, true)?, after)
}

fn skips(nodes: &[Node], at: NodeId, after: Option<Prefix>) -> bool
    requires { at.0 < length nodes.now }
    ensures { IsTrue result → (q : Prefix) → Covers (prefix_at nodes.now at.0) q → is_after after q ≡ false }
{
    is_past(prefix_of(nodes, at), after)
}

fn is_later(nodes: &[Node], at: NodeId, after: Option<Prefix>) -> bool
    requires { at.0 < length nodes.now }
    ensures { IsTrue result ↔ IsLater nodes.now (prefix_at nodes.now at.0) after at.0 }
{
    has_value(nodes, at) && comes_after(prefix_of(nodes, at), after)
}
