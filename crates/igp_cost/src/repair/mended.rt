//! The labels of an old tree in the graph as it is now: brought to the places of their nodes, mended and certified, all
//! of them or those that differ.

ghost use Rattle.std.specs.Prelude.{◌≤◌, IfOk, IfSome};
ghost use Rattle.igp_cost.specs.Labels.{AreBackedLabels, HasOneEach, IsClosed, IsPlace, AreLimited, Starts};
ghost use Rattle.igp_cost.specs.Trees.{source_of};
ghost use Rattle.igp_cost.specs.Offers.{IsMended, IsMendedOver};
ghost use Rattle.igp_cost.specs.Placed.{ArePlaced, AreRowsOf, HasEnds};
ghost use Rattle.igp_cost.specs.Wired.{IsFound};

use crate::change::Change;
use crate::label::Label;
use crate::least_trees::{RootedGraph, Tree, place_of};
use crate::repair::ends::Ends;
use crate::repair::placed::known_labels;
use net_prefix::Addr;
use std::alloc::{AllocError, Global};

impl<'a> RootedGraph<'a> {
    // The least labels from the source, mended from those of an old tree. None where mending them did not do.
    pub fn mended_labels(
        &self,
        alloc: Global,
        old: &[(Addr, Label)],
        change: Change,
    ) -> Result<Option<Vec<Option<Label>>>, AllocError>
        ensures backed { IfOk result (λ o.
            IfSome o (λ v. AreBackedLabels self.now.nodes.now self.now.source self.now.links.now v.items)) }
        ensures closed { IfOk result (λ o.
            IfSome o (λ v. IsClosed self.now.nodes.now self.now.source self.now.links.now v.items)) }
    {
        let (one, other) = change.ends();
        let ends = Ends {
            one: self.place_or_source(one),
            other: self.place_or_source(other),
        };
        let mut labels = self.old_labels(alloc, old)?;
        self.mend(alloc, &mut labels, ends)?;
        if self.are_least(alloc, &labels)? {
            Ok(Some(labels))
        } else {
            Ok(None)
        }
    }

    // A tree mended from the one before a change and certified where they differ. None where mending it did not do.
    pub fn mended_tree(
        &self,
        alloc: Global,
        old: &Tree,
        change: &Change,
    ) -> Result<Option<Tree>, AllocError>
        requires { IsFound self.now.nodes.now (source_of old.now) self.now.source }
        ensures { IfOk result (λ o. IfSome o (IsMendedOver self.now.nodes.now self.now.links.now change.now old.now)) }
    {
        let (one, other) = change.ends();
        match (place_of(self.nodes, one), place_of(self.nodes, other)) {
            (Some(one), Some(other)) => self.mended_between(alloc, old, Ends { one, other }),
            _ => Ok(None),
        }
    }

    // A tree mended from an old one between two places, and certified where they differ. None where mending it did not
    // do.
    fn mended_between(
        &self,
        alloc: Global,
        old: &Tree,
        ends: Ends,
    ) -> Result<Option<Tree>, AllocError>
        requires source { IsFound self.now.nodes.now (source_of old.now) self.now.source }
        requires ends { HasEnds self.now.nodes.now ends }
        ensures { IfOk result (λ o.
            IfSome o (IsMended self.now.nodes.now self.now.links.now old.now ends.one ends.other)) }
    {
        if let Some(rows) = self.rows_in_order(old) {
            return self.mended_rows(alloc, old, rows, ends);
        }
        match self.rows_of_tree(alloc, old)? {
            Some(before) => self.mended_rows(alloc, old, &before, ends),
            None => Ok(None),
        }
    }

    // The tree of the rows before, mended: those below the end of an edge are shifted together, and where that did not
    // do, a search mends them. None where neither did.
    fn mended_rows(
        &self,
        alloc: Global,
        old: &Tree,
        before: &[(Addr, Label)],
        ends: Ends,
    ) -> Result<Option<Tree>, AllocError>
        requires source { IsFound self.now.nodes.now (source_of old.now) self.now.source }
        requires ends { HasEnds self.now.nodes.now ends }
        requires before { AreRowsOf self.now.nodes.now old.now before.now }
        ensures { IfOk result (λ o.
            IfSome o (IsMended self.now.nodes.now self.now.links.now old.now ends.one ends.other)) }
    {
        let mut rows = Vec::from_slice(alloc, before)?;
        if self.shift(alloc, before, &mut rows, ends)? {
            let made = self.tree_if_local(alloc, old, before, rows, ends)?;
            if made.is_some() {
                return Ok(made);
            }
        }
        self.searched_tree(alloc, old, before, ends)
    }

    // The tree of the rows before, mended by a search. None where that did not do.
    fn searched_tree(
        &self,
        alloc: Global,
        old: &Tree,
        before: &[(Addr, Label)],
        ends: Ends,
    ) -> Result<Option<Tree>, AllocError>
        requires source { IsFound self.now.nodes.now (source_of old.now) self.now.source }
        requires ends { HasEnds self.now.nodes.now ends }
        requires before { AreRowsOf self.now.nodes.now old.now before.now }
        ensures { IfOk result (λ o.
            IfSome o (IsMended self.now.nodes.now self.now.links.now old.now ends.one ends.other)) }
    {
        let mut labels = known_labels(alloc, before)?;
        self.mend(alloc, &mut labels, ends)?;
        let rows = self.rows_of_labels(alloc, &labels)?;
        self.tree_if_local(alloc, old, before, rows, ends)
    }

    // The tree of rows, if they are certified where they differ from those before.
    fn tree_if_local(
        &self,
        alloc: Global,
        old: &Tree,
        before: &[(Addr, Label)],
        rows: Vec<(Addr, Label)>,
        ends: Ends,
    ) -> Result<Option<Tree>, AllocError>
        requires source { IsFound self.now.nodes.now (source_of old.now) self.now.source }
        requires ends { HasEnds self.now.nodes.now ends }
        requires before { AreRowsOf self.now.nodes.now old.now before.now }
        requires placed { ArePlaced self.now.nodes.now rows.items }
        ensures { IfOk result (λ o.
            IfSome o (IsMended self.now.nodes.now self.now.links.now old.now ends.one ends.other)) }
    {
        if !self.is_local(before, &rows, ends) {
            return Ok(None);
        }
        let made = Tree::from_rows(alloc, old.source(), self.nodes, rows)?;
        Ok(Some(made))
    }

    // The place of a node, or the source's where there is no such node.
    fn place_or_source(&self, addr: Addr) -> usize
        ensures { IsPlace self.now.nodes.now result }
    {
        match place_of(self.nodes, addr) {
            Some(at) => at,
            None => self.source,
        }
    }

    // The labels of an old tree at the places of their nodes, as far as they can be used, and the source's own.
    fn old_labels(
        &self,
        alloc: Global,
        old: &[(Addr, Label)],
    ) -> Result<Vec<Option<Label>>, AllocError>
        ensures same_length { IfOk result (λ v. HasOneEach self.now.nodes.now v.items) }
        ensures limited { IfOk result (λ v. AreLimited v.items) }
        ensures start { IfOk result (λ v. Starts self.now.nodes.now self.now.source v.items) }
    {
        let mut labels = Vec::with_capacity(alloc, self.nodes.len())?;
        let mut row = 0;
        for at in 0..self.nodes.len() {
            let addr = self.nodes[at].0;
            row = first_from(old, row, addr);
            let label = if at == self.source {
                Some(Label { cost: 0, hop: addr })
            } else {
                usable(old, row, addr)
            };
            labels.push(label)?;
        }
        Ok(labels)
    }
}

// The first row, from one on, that is not below an address.
fn first_from(rows: &[(Addr, Label)], start: usize, addr: Addr) -> usize {
    let mut row = start;
    while row < rows.len() && rows[row].0.0 < addr.0 {
        row += 1;
    }
    row
}

// The label in a row, if it is that of the address, and its cost is within the limit.
fn usable(rows: &[(Addr, Label)], row: usize, addr: Addr) -> Option<Label>
    ensures { IfSome result (λ l. l.cost ≤ 268435456) }
{
    if row >= rows.len() {
        return None;
    }
    let (found, label) = rows[row];
    if found.0 == addr.0 && label.cost <= 268_435_456 {
        Some(label)
    } else {
        None
    }
}
