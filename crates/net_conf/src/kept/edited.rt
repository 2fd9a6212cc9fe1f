//! The configuration after an edit, made beside the one before.

ghost use Rattle.std.specs.Prelude.{◌≡◌, None, true, IfOk, OnOk, cond, Some};
ghost use Rattle.std.specs.Map.{lookup};
ghost use Rattle.std.specs.BTreeMap.{is_at};
ghost use Rattle.net_prefix.specs.declared.addr.Addr.{Addr};
ghost use Rattle.net_prefix.specs.Address.{addr_cmp};
ghost use Rattle.igp_cost.specs.Topology.{is_node};
ghost use Rattle.igp_cost.specs.Trees.{Reached, tree_of};
ghost use Rattle.net_conf.specs.Edits.{refusal_of, edited};
ghost use Rattle.net_conf.specs.Kept.{IsSound, AreKept, CostsStayBut, IsLinked, IsJoined, link_in, session_in};
ghost use Rattle.net_conf.specs.Members.{members_of};

use crate::edit::Edit;
use crate::kept::carried::{Carried, carry_members, carry_trees};
use crate::kept::conf_trees::ConfTrees;
use crate::tables::{ConfTables, are_few};
use igp_cost::{
    Graph, Tree, lone_node_moves_no_tree, one_edge_is_a_change, own_edges_make_a_tree,
    own_nodes_make_a_tree, tree_of_is_a_tree, trees_are_one,
};
use net_prefix::Addr;
use seq::Copied;
use shared_map::ChunkedMap;
use std::alloc::{AllocError, Global};
use std::collections::BTreeSet;
use std::thread::Threads;

/// The tables and the trees that an edit makes, and whose trees have moved.
#[derive(Drop)]
pub(crate) struct MadeTrees {
    pub(crate) conf: ConfTrees,
    pub(crate) moved: BTreeSet<Addr>,
}

impl ConfTrees {
    /// What is configured after an edit that is not refused.
    pub(crate) fn made<R: Threads + Sync>(
        &self,
        rt: &R,
        alloc: Global,
        edit: &Edit,
    ) -> Result<MadeTrees, AllocError>
        requires { refusal_of self.now edit.now ≡ None }
        ensures conf { IfOk result (λ made. made.conf ≡ edited self.now edit.now) }
        ensures moved { IfOk result (λ made. CostsStayBut self.now made.conf made.moved.keys) }
    {
        edit.knows_metric();
        let mut tables = self.tables.copy(alloc)?;
        let Ok(()) = tables.apply(alloc, edit) else {
            drop(tables);
            return Err(AllocError);
        };
        let Ok(Carried { trees, moved }) = self.trees_after(rt, alloc, edit, &tables) else {
            drop(tables);
            return Err(AllocError);
        };
        let conf = ConfTrees { tables, trees };
        Ok(MadeTrees { conf, moved })
    }

    /// The trees of the tables that the edit makes of these.
    fn trees_after<R: Threads + Sync>(
        &self,
        rt: &R,
        alloc: Global,
        edit: &Edit,
        tables: &ConfTables,
    ) -> Result<Carried, AllocError>
        requires passes { refusal_of self.now edit.now ≡ None }
        requires made { tables.now ≡ edited self.now edit.now }
        requires sound { IsSound tables.now }
        ensures trees { IfOk result (λ made. AreKept tables.now made.trees) }
        ensures moved { IfOk result (λ made. CostsStayBut self.now tables.now made.moved.keys) }
    {
        match edit.link() {
            Some((one, other)) => self.trees_with_link(rt, alloc, tables, one, other),
            None => self.trees_without_link(alloc, edit, tables),
        }
    }

    /// The trees, where the edit is of no link.
    fn trees_without_link(
        &self,
        alloc: Global,
        edit: &Edit,
        tables: &ConfTables,
    ) -> Result<Carried, AllocError>
        requires passes { refusal_of self.now edit.now ≡ None }
        requires made { tables.now ≡ edited self.now edit.now }
        requires sound { IsSound tables.now }
        requires link { link_in edit.now ≡ None }
        ensures trees { IfOk result (λ made. AreKept tables.now made.trees) }
        ensures moved { IfOk result (λ made. CostsStayBut self.now tables.now made.moved.keys) }
    {
        lone_node_moves_no_tree();
        self.tables.orders();
        let trees = match edit.session() {
            Some((one, other)) => self.trees_with_session(alloc, tables, one, other)?,
            None => self.same_trees(edit, tables)?,
        };
        let moved = BTreeSet::new(alloc);
        Ok(Carried { trees, moved })
    }

    /// The trees, where the edit makes or changes the link of the two.
    fn trees_with_link<R: Threads + Sync>(
        &self,
        rt: &R,
        alloc: Global,
        tables: &ConfTables,
        one: Addr,
        other: Addr,
    ) -> Result<Carried, AllocError>
        requires linked { IsLinked self.now tables.now one other }
        requires sound { IsSound tables.now }
        ensures trees { IfOk result (λ made. AreKept tables.now made.trees) }
        ensures moved { IfOk result (λ made. CostsStayBut self.now tables.now made.moved.keys) }
    {
        if self.trees.is_empty() {
            let trees = ChunkedMap::new();
            let moved = BTreeSet::new(alloc);
            return Ok(Carried { trees, moved });
        }
        let members = tables.members(alloc, one, other)?;
        if are_few(&members) {
            self.trees_of_members(alloc, tables, one, other, &members)
        } else {
            self.trees_of_all(rt, alloc, tables, one, other)
        }
    }

    /// The same: each tree is asked whether it stays.
    fn trees_of_all<R: Threads + Sync>(
        &self,
        rt: &R,
        alloc: Global,
        tables: &ConfTables,
        one: Addr,
        other: Addr,
    ) -> Result<Carried, AllocError>
        requires linked { IsLinked self.now tables.now one other }
        requires sound { IsSound tables.now }
        ensures trees { IfOk result (λ made. AreKept tables.now made.trees) }
        ensures moved { IfOk result (λ made. CostsStayBut self.now tables.now made.moved.keys) }
    {
        one_edge_is_a_change();
        tree_of_is_a_tree();
        self.tables.orders();
        match self.tables.change_to(tables, one, other) {
            Some(change) => {
                let graph = tables.graph(alloc)?;
                let nodes = tables.node_count();
                let carried = carry_trees(rt, alloc, &graph, nodes, &change, &self.trees)?;
                Ok(carried)
            }
            None => {
                let trees = self.trees.share()?;
                let moved = BTreeSet::new(alloc);
                Ok(Carried { trees, moved })
            }
        }
    }

    /// The same: those of these are asked who are all in the AS of one of the two, since no other tree hangs on the
    /// link.
    fn trees_of_members(
        &self,
        alloc: Global,
        tables: &ConfTables,
        one: Addr,
        other: Addr,
        members: &[Addr],
    ) -> Result<Carried, AllocError>
        requires linked { IsLinked self.now tables.now one other }
        requires sound { IsSound tables.now }
        requires members { members.now ≡ members_of tables.now one other }
        ensures trees { IfOk result (λ made. AreKept tables.now made.trees) }
        ensures moved { IfOk result (λ made. CostsStayBut self.now tables.now made.moved.keys) }
    {
        one_edge_is_a_change();
        tree_of_is_a_tree();
        trees_are_one();
        own_edges_make_a_tree();
        own_nodes_make_a_tree();
        self.tables.orders();
        match self.tables.change_to(tables, one, other) {
            Some(change) => {
                let graph = tables.graph_to(alloc, members)?;
                let carried = carry_members(alloc, &graph, &change, members, &self.trees)?;
                Ok(carried)
            }
            None => {
                let trees = self.trees.share()?;
                let moved = BTreeSet::new(alloc);
                Ok(Carried { trees, moved })
            }
        }
    }

    /// The trees, where the edit makes or changes the session of the two: theirs are made, where they are missing.
    fn trees_with_session(
        &self,
        alloc: Global,
        tables: &ConfTables,
        one: Addr,
        other: Addr,
    ) -> Result<ChunkedMap<Addr, Tree>, AllocError>
        requires joined { IsJoined self.now tables.now one other }
        requires sound { IsSound tables.now }
        ensures { IfOk result (λ trees. AreKept tables.now trees) }
    {
        let mut trees = self.trees.share()?;
        if self.ends_session(one) && self.ends_session(other) {
            return Ok(trees);
        }
        let graph = tables.graph_for(alloc, one, other)?;
        add_missing(alloc, &mut trees, &graph, one)?;
        add_missing(alloc, &mut trees, &graph, other)?;
        Ok(trees)
    }

    /// The trees, where the edit is of neither a link nor a session.
    fn same_trees(
        &self,
        edit: &Edit,
        tables: &ConfTables,
    ) -> Result<ChunkedMap<Addr, Tree>, AllocError>
        requires passes { refusal_of self.now edit.now ≡ None }
        requires made { tables.now ≡ edited self.now edit.now }
        requires link { link_in edit.now ≡ None }
        requires session { session_in edit.now ≡ None }
        ensures { IfOk result (λ trees. AreKept tables.now trees) }
    {
        lone_node_moves_no_tree();
        self.tables.orders();
        let trees = self.trees.share()?;
        Ok(trees)
    }
}

/// Adds the tree of the node, where it is missing.
fn add_missing(
    alloc: Global,
    trees: &mut ChunkedMap<Addr, Tree>,
    graph: &Graph,
    addr: Addr,
) -> Result<(), AllocError>
    requires node { is_node graph.now.nodes addr ≡ true }
    requires right { (t : Reached) → lookup (is_at (addr_cmp addr)) trees.old ≡ Some t →
        t ≡ tree_of graph.now.nodes graph.now.edges addr }
    ensures { OnOk result ((r : Addr) →
        lookup (is_at (addr_cmp r)) trees.new ≡ cond (is_at (addr_cmp r) addr)
        (Some (tree_of graph.now.nodes graph.now.edges r)) (lookup (is_at (addr_cmp r)) trees.old)) }
{
    if !trees.contains_key(&addr) {
        let tree = graph.tree(alloc, addr)?;
        trees.put(alloc, addr, tree)?;
    }
    Ok(())
}
