//! Trees that a change of the edges may move, and what they become.

ghost use Rattle.std.specs.Prelude.{◌≡◌, ◌<◌, ◌≤◌, ◌++◌, List, map, IfOk};
ghost use Rattle.std.specs.List.{AllByRecursion};
ghost use Rattle.std.specs.List.Sorted.{IsPermutation, IsStrictlySortedBy};
ghost use Rattle.std.specs.Map.{keys_of};
ghost use Rattle.std.specs.Thread.{IsSync};
ghost use Rattle.net_prefix.specs.declared.addr.Addr.{Addr};
ghost use Rattle.net_prefix.specs.Address.{addr_cmp};
ghost use Rattle.igp_cost.specs.Trees.{Reached};
ghost use Rattle.shared_map.specs.EntryChunks.{entries_in};
ghost use Rattle.net_conf.specs.Kept.{WereTrees, WasTreeOf};
ghost use Rattle.net_conf.specs.Members.{trees_of, WereTreesOf};
ghost use Rattle.net_conf.specs.MovedTrees.{tree_after, AreMoved};

use igp_cost::{Change, Graph, Tree};
use net_prefix::Addr;
use rayon::current_num_threads;
use shared_map::{ChunkedMap, SharedMap};
use std::alloc::{AllocError, Global};
use std::marker::Model;
use std::thread::{Threads, join};

/// From how many labels on threads make the trees. Where each tree changes at one label alone, these take some three
/// milliseconds; with fewer, threads cost more than they bring.
const WORTH_THREADS: usize = 700_000;

/// The fewest labels that one thread makes.
const LEAST_LABELS: usize = 25_000;

/// The most pieces that trees are made in, each by a thread of its own.
const MOST_PIECES: usize = 64;

/// A tree from before a change, which may not be the one after it.
#[derive(Drop)]
pub(crate) struct MovedTree<'a> {
    graph: &'a Graph,
    change: &'a Change,
    tree: &'a Tree,
}

impl<'a> Model for MovedTree<'a> {
    ghost use Rattle.net_conf.specs.MovedTrees as trees;

    ghost Value = { trees.MovedTree };

    ghost view = { λ x. record { graph = x.graph.now; change = x.change.now; tree = x.tree.now } };

    ghost invariant = { λ x.
        trees.IsFromBefore (record { graph = x.graph.now; change = x.change.now; tree = x.tree.now }) };
}

impl<'a> MovedTree<'a> {
    /// The tree of the same node after the change: mended, where that does, and else made afresh.
    fn after(&self, alloc: Global) -> Result<Tree, AllocError>
        ensures { IfOk result (λ tree. tree ≡ tree_after self.now) }
    {
        match self.graph.mended(alloc, self.tree, self.change)? {
            Some(tree) => Ok(tree),
            None => self.graph.tree(alloc, self.tree.source()),
        }
    }
}

/// Whether so many trees of so many nodes are made by threads.
fn is_worth_threads(trees: usize, nodes: usize) -> bool {
    trees.saturating_mul(nodes) >= WORTH_THREADS
}

/// Puts trees whose sources have neighbouring addresses far apart. A change moves those of neighbours alike, and each
/// thread makes trees that follow one another: so no thread gets all of the work.
fn spread(moved: &mut Vec<MovedTree<'_>>)
    ensures { IsPermutation moved.old.items moved.new.items }
{
    moved.sort_unstable_by_key(|tree| tree.tree.source().0.reverse_bits());
}

/// Those of the trees from before the change that are not seen to stay, in an order for threads where there are many.
pub(crate) fn moved_trees<'a>(
    alloc: Global,
    graph: &'a Graph,
    nodes: usize,
    change: &'a Change,
    old: &'a [SharedMap<Addr, Tree>],
) -> Result<Vec<MovedTree<'a>>, AllocError>
    requires were { WereTrees change.now graph.now.nodes graph.now.edges (entries_in old.now) }
    requires ordered { IsStrictlySortedBy addr_cmp (keys_of (entries_in old.now)) }
    ensures { IfOk result (λ moved. AreMoved graph.now (entries_in old.now) moved.items) }
{
    let mut moved = find_moved(alloc, graph, change, old)?;
    if is_worth_threads(moved.len(), nodes) {
        spread(&mut moved);
    }
    Ok(moved)
}

/// Those of the trees from before the change that are not seen to stay.
fn find_moved<'a>(
    alloc: Global,
    graph: &'a Graph,
    change: &'a Change,
    old: &'a [SharedMap<Addr, Tree>],
) -> Result<Vec<MovedTree<'a>>, AllocError>
    requires were { WereTrees change.now graph.now.nodes graph.now.edges (entries_in old.now) }
    requires ordered { IsStrictlySortedBy addr_cmp (keys_of (entries_in old.now)) }
    ensures { IfOk result (λ moved. AreMoved graph.now (entries_in old.now) moved.items) }
{
    let mut moved = Vec::new(alloc);
    for chunk in old {
        moved = with_moved(graph, change, moved, chunk.as_slice())?;
    }
    Ok(moved)
}

/// These, and those of the trees from before the change that are not seen to stay.
fn with_moved<'a>(
    graph: &'a Graph,
    change: &'a Change,
    moved: Vec<MovedTree<'a>>,
    old: &'a [(Addr, Tree)],
) -> Result<Vec<MovedTree<'a>>, AllocError>
    requires { AllByRecursion (λ e. WasTreeOf change.now graph.now.nodes graph.now.edges e.0 e.1) old.now }
    ensures { IfOk result (λ with. (before : List (Addr × Reached)) →
        AreMoved graph.now before moved.entry.items → AreMoved graph.now (before ++ old.now) with.items) }
{
    let mut with = moved;
    for entry in old {
        let tree = &entry.1;
        if !graph.keeps(tree, change) {
            with.push(MovedTree {
                graph,
                change,
                tree,
            })?;
        }
    }
    Ok(with)
}

/// Those of the trees of these from before the change that are not seen to stay.
pub(crate) fn moved_members<'a>(
    alloc: Global,
    graph: &'a Graph,
    change: &'a Change,
    members: &[Addr],
    old: &'a ChunkedMap<Addr, Tree>,
) -> Result<Vec<MovedTree<'a>>, AllocError>
    requires { WereTreesOf members.now change.now graph.now.nodes graph.now.edges old.now }
    ensures { IfOk result (λ moved. AreMoved graph.now (trees_of members.now old.now) moved.items) }
{
    let mut moved = Vec::new(alloc);
    for member in members {
        let Some(tree) = old.get(member) else {
            continue;
        };
        if graph.keeps(tree, change) {
            continue;
        }
        moved.push(MovedTree {
            graph,
            change,
            tree,
        })?;
    }
    Ok(moved)
}

/// In how many pieces so many trees of so many nodes are made: one for each processor, and none of few labels.
fn pieces_of<R: Threads>(rt: &R, trees: usize, nodes: usize) -> usize
    ensures { result ≤ 64 }
{
    let most = trees.saturating_mul(nodes) / LEAST_LABELS;
    current_num_threads(rt)
        .min(most)
        .min(trees)
        .min(MOST_PIECES)
}

/// The trees after the change, in order. Many are shared among threads, in any number: the list is the same.
pub(crate) fn trees_after<R: Threads + Sync>(
    rt: &R,
    alloc: Global,
    moved: &[MovedTree<'_>],
    nodes: usize,
) -> Result<Vec<Tree>, AllocError>
    ensures { IfOk result (λ trees. trees.items ≡ map tree_after moved.now) }
{
    if is_worth_threads(moved.len(), nodes) {
        let pieces = pieces_of(rt, moved.len(), nodes);
        make_in_pieces(rt, alloc, moved, pieces)
    } else {
        make_in_turn(alloc, moved)
    }
}

/// The trees after the change, made by this thread, one after another.
pub(crate) fn make_in_turn(alloc: Global, moved: &[MovedTree<'_>]) -> Result<Vec<Tree>, AllocError>
    ensures { IfOk result (λ trees. trees.items ≡ map tree_after moved.now) }
{
    let mut trees = Vec::with_capacity(alloc, moved.len())?;
    for tree in moved {
        trees.push(tree.after(alloc)?)?;
    }
    Ok(trees)
}

/// The trees after the change, in so many pieces. This thread makes the last, and starts a thread for each other one: a
/// system puts threads that one thread starts on processors of their own, and those that these start in turn beside
/// them. A piece that finds no memory leaves nothing.
#[cycle(pieces)]
fn make_in_pieces<R: Threads + Sync>(
    rt: &R,
    alloc: Global,
    moved: &[MovedTree<'_>],
    pieces: usize,
) -> Result<Vec<Tree>, AllocError>
    ensures { IfOk result (λ trees. trees.items ≡ map tree_after moved.now) }
{
    if pieces < 2 {
        return make_in_turn(alloc, moved);
    }
    let (piece, others) = moved.split_at(moved.len() / pieces);
    let theirs = move || -> Result<Vec<Tree>, AllocError>
        ensures { IfOk result (λ trees. trees.items ≡ map tree_after piece.entry.now) }
    { make_in_turn(alloc, piece) };
    let own = move || -> Result<Vec<Tree>, AllocError>
        requires { IsSync R.row × (1 < pieces) }
        ensures { IfOk result (λ trees. trees.items ≡ map tree_after others.entry.now) }
    { make_in_pieces(rt, alloc, others, pieces - 1) };
    let (made, rest) = join(rt, theirs, own);
    let mut trees = made?;
    let mut rest = rest?;
    trees.append(&mut rest)?;
    Ok(trees)
}
