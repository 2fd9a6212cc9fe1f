//! Rows by the places of nodes: one for each node, in which a cost past all others says that no walk is known.

ghost use Rattle.std.specs.Prelude.{◌≡◌, ◌<◌, ◌≤◌, ℕ, length, slice_index_or, IfOk, IfSome};
ghost use Rattle.std.specs.Bool.{OnTrue};
ghost use Rattle.igp_cost.specs.Labels.{AreLimited, IsPlace, HasOneEach};
ghost use Rattle.igp_cost.specs.Offers.{AreLabelsOf};
ghost use Rattle.igp_cost.specs.Placed.{known, labels_of, ArePlaced};
ghost use Rattle.igp_cost.specs.Wired.{no_row};

use crate::label::{Label, NO_WALK, known};
use crate::least_trees::{RootedGraph, Tree};
use net_prefix::Addr;
use std::alloc::{AllocError, Global};

/// What rows say of their nodes.
pub fn known_labels(alloc: Global, rows: &[(Addr, Label)]) -> Result<Vec<Option<Label>>, AllocError>
    ensures { IfOk result (λ v. v.items ≡ labels_of rows.now) }
{
    rows.iter().map(|row| known(row.1)).collect(alloc)
}

// The row of an address that says this.
fn row_of(addr: Addr, label: Option<Label>) -> (Addr, Label)
    ensures same { result.0 ≡ addr }
    ensures known { IfSome label (λ l. l.cost ≤ 268435456) → known result.1 ≡ label }
{
    match label {
        Some(label) => (addr, label),
        None => {
            let none = Label {
                cost: NO_WALK,
                hop: addr,
            };
            (addr, none)
        }
    }
}

// Whether the cost of a label, if there is one, is within the limit.
fn is_limited(label: Option<Label>) -> bool
    ensures { OnTrue result (IfSome label (λ l. l.cost ≤ 268435456)) }
{
    match label {
        Some(label) => label.cost <= 268_435_456,
        None => true,
    }
}

impl<'a> RootedGraph<'a> {
    /// Whether rows are those of the nodes, one for each, with costs within the limit.
    fn are_in_order(&self, rows: &[(Addr, Label)]) -> bool
        ensures placed { OnTrue result (ArePlaced self.now.nodes.now rows.now) }
        ensures within { OnTrue result ((v : ℕ) → v < length rows.now →
            (slice_index_or rows.now v no_row).1.cost ≤ 268435456) }
    {
        if rows.len() != self.nodes.len() {
            return false;
        }
        for at in 0..self.nodes.len() {
            let (addr, label) = rows[at];
            if addr.0 != self.nodes[at].0.0 || label.cost > 268_435_456 {
                return false;
            }
        }
        true
    }

    /// The rows of a tree, where they are those of the nodes, one for each, and none stands apart.
    pub fn rows_in_order<'t>(&self, old: &'t Tree) -> Option<&'t [(Addr, Label)]>
        ensures placed { IfSome result (λ rows. ArePlaced self.now.nodes.now rows.now) }
        ensures limited { IfSome result (λ rows. AreLimited (labels_of rows.now)) }
        ensures known { IfSome result (λ rows. AreLabelsOf self.now.nodes.now old.now (labels_of rows.now)) }
    {
        let rows = old.rows()?;
        if self.are_in_order(rows) {
            Some(rows)
        } else {
            None
        }
    }

    /// A row for each node, of what a tree says. None where a cost is past the limit, which none is.
    pub fn rows_of_tree(
        &self,
        alloc: Global,
        old: &Tree,
    ) -> Result<Option<Vec<(Addr, Label)>>, AllocError>
        ensures placed { IfOk result (λ o. IfSome o (λ v. ArePlaced self.now.nodes.now v.items)) }
        ensures limited { IfOk result (λ o. IfSome o (λ v. AreLimited (labels_of v.items))) }
        ensures known { IfOk result (λ o. IfSome o (λ v. AreLabelsOf self.now.nodes.now old.now (labels_of v.items))) }
    {
        let mut rows = Vec::with_capacity(alloc, self.nodes.len())?;
        let mut row: usize = 0;
        for at in 0..self.nodes.len() {
            let addr = self.nodes[at].0;
            let label = old.label_near(row, addr);
            if !is_limited(label) {
                return Ok(None);
            }
            row = row.wrapping_add(label.is_some() as usize);
            rows.push(row_of(addr, label))?;
        }
        Ok(Some(rows))
    }

    /// A row for each node, of what is said of its place.
    pub fn rows_of_labels(
        &self,
        alloc: Global,
        labels: &[Option<Label>],
    ) -> Result<Vec<(Addr, Label)>, AllocError>
        requires { HasOneEach self.now.nodes.now labels.now }
        ensures { IfOk result (λ v. ArePlaced self.now.nodes.now v.items) }
    {
        let mut rows = Vec::with_capacity(alloc, self.nodes.len())?;
        for at in 0..self.nodes.len() {
            rows.push(row_of(self.nodes[at].0, labels[at]))?;
        }
        Ok(rows)
    }

    /// Puts a label into the row at a place.
    #[inline(always)]
    pub fn put(&self, rows: &mut [(Addr, Label)], at: usize, label: Label)
        requires at { IsPlace self.now.nodes.now at }
        requires placed { ArePlaced self.now.nodes.now rows.old }
        ensures placed { ArePlaced self.now.nodes.now rows.new }
    {
        rows[at] = (rows[at].0, label);
    }
}
