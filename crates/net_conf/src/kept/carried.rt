//! The trees of the ends of sessions, carried over a change of the edges.

ghost use Rattle.std.specs.Prelude.{◌≡◌, [], true, false, fold, IfOk, option_map};
ghost use Rattle.std.specs.Map.{lookup};
ghost use Rattle.std.specs.BTreeMap.{is_at};
ghost use Rattle.net_prefix.specs.declared.addr.Addr.{Addr};
ghost use Rattle.net_prefix.specs.Address.{addr_cmp};
ghost use Rattle.igp_cost.specs.Trees.{tree_of};
ghost use Rattle.net_conf.specs.Concerned.{is_among};
ghost use Rattle.net_conf.specs.Kept.{WereTrees};
ghost use Rattle.net_conf.specs.Members.{WereTreesOf};
ghost use Rattle.net_conf.specs.MovedTrees.{with_tree, with_source};

use crate::kept::moved_trees::{make_in_turn, moved_members, moved_trees, trees_after};
use igp_cost::{Change, Graph, Tree};
use net_prefix::Addr;
use shared_map::ChunkedMap;
use std::alloc::{AllocError, Global};
use std::collections::BTreeSet;
use std::thread::Threads;

/// The trees after an edit, and whose have moved.
#[derive(Drop)]
pub(crate) struct Carried {
    pub(crate) trees: ChunkedMap<Addr, Tree>,
    pub(crate) moved: BTreeSet<Addr>,
}

/// The trees of the graph, of so many nodes, at the same addresses, of those from before the change: the map is shared,
/// and what moves is put in.
pub(crate) fn carry_trees<R: Threads + Sync>(
    rt: &R,
    alloc: Global,
    graph: &Graph,
    nodes: usize,
    change: &Change,
    old: &ChunkedMap<Addr, Tree>,
) -> Result<Carried, AllocError>
    requires were { WereTrees change.now graph.now.nodes graph.now.edges old.now }
    ensures trees { IfOk result (λ made. (r : Addr) →
        lookup (is_at (addr_cmp r)) made.trees ≡ option_map (λ t. tree_of graph.now.nodes graph.now.edges r)
        (lookup (is_at (addr_cmp r)) old.now)) }
    ensures moved { IfOk result (λ made. (r : Addr) → is_among r made.moved.keys ≡ false →
        lookup (is_at (addr_cmp r)) made.trees ≡ lookup (is_at (addr_cmp r)) old.now) }
{
    old.order();
    let moved = moved_trees(alloc, graph, nodes, change, old.chunks())?;
    let made = trees_after(rt, alloc, &moved, nodes)?;
    let carried = with_trees(alloc, old, made)?;
    Ok(carried)
}

/// The trees, with those of these as they are in the graph: the map is shared, and what moves is put in. These are few,
/// so this thread makes them.
pub(crate) fn carry_members(
    alloc: Global,
    graph: &Graph,
    change: &Change,
    members: &[Addr],
    old: &ChunkedMap<Addr, Tree>,
) -> Result<Carried, AllocError>
    requires were { WereTreesOf members.now change.now graph.now.nodes graph.now.edges old.now }
    ensures trees { IfOk result (λ made. (r : Addr) → is_among r members.now ≡ true →
        lookup (is_at (addr_cmp r)) made.trees ≡ option_map (λ t. tree_of graph.now.nodes graph.now.edges r)
        (lookup (is_at (addr_cmp r)) old.now)) }
    ensures others { IfOk result (λ made. (r : Addr) → is_among r members.now ≡ false →
        lookup (is_at (addr_cmp r)) made.trees ≡ lookup (is_at (addr_cmp r)) old.now) }
    ensures moved { IfOk result (λ made. (r : Addr) → is_among r made.moved.keys ≡ false →
        lookup (is_at (addr_cmp r)) made.trees ≡ lookup (is_at (addr_cmp r)) old.now) }
{
    let moved = moved_members(alloc, graph, change, members, old)?;
    let made = make_in_turn(alloc, &moved)?;
    let carried = with_trees(alloc, old, made)?;
    Ok(carried)
}

/// The trees, with these in the place of those of their sources, and whose these are.
fn with_trees(
    alloc: Global,
    old: &ChunkedMap<Addr, Tree>,
    made: Vec<Tree>,
) -> Result<Carried, AllocError>
    ensures trees { IfOk result (λ carried. carried.trees ≡ fold with_tree old.now made.items) }
    ensures moved { IfOk result (λ carried. carried.moved.keys ≡ fold with_source [] made.items) }
{
    let mut trees = old.share()?;
    let mut moved = BTreeSet::new(alloc);
    for tree in made {
        let source = tree.source();
        moved.insert(source)?;
        trees.put(alloc, source, tree)?;
    }
    Ok(Carried { trees, moved })
}
