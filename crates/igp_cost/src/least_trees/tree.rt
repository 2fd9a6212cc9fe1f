//! The costs and first hops from one router.

ghost use Rattle.std.specs.Prelude.{◌≡◌, ◌≢◌, ◌≤◌, ◌↔◌, [], ◌∷◌, ◌++◌, length, All, IsTrue, IfOk, IfSome};
ghost use Rattle.std.specs.Bool.{OnTrue};
ghost use Rattle.std.specs.List.{insert, slice_get};
ghost use Rattle.std.specs.Map.{lookup};
ghost use Rattle.std.specs.BTreeMap.{is_at};
ghost use Rattle.net_prefix.specs.Address.{addr_cmp};
ghost use Rattle.igp_cost.specs.Offers.{HasOneMore};
ghost use Rattle.igp_cost.specs.Placed.{labels_of, ArePlaced};
ghost use Rattle.igp_cost.specs.Trees.{source_of, label_in, cost_in, first_hop_in};
ghost use Rattle.igp_cost.specs.Wired.{IsRising, AreAscending, AreBelow, row, rows_of};

use crate::label::{Label, NO_WALK, known};
use net_prefix::{Addr, Asn};
use seq::{Copied, SharedSeq, push_some};
use std::alloc::{AllocError, Global};
use std::marker::Model;

/// By how many rows the room of a tree grows that gets one row more.
const CHUNK: usize = 64;

/// How many rows at most stand apart, of a tree with as many others at least.
const MOST_LAST: usize = 64;

/// The least cost and the first hop from a router, its source, to each address that a walk from it reaches. A copy
/// takes no memory.
#[derive(Debug, Drop)]
pub struct Tree {
    source: Addr,
    rows: SharedSeq<(Addr, Label)>,
    // The rows that came last, above all others: a tree that gets one more copies these alone.
    last: SharedSeq<(Addr, Label)>,
}

impl Model for Tree {
    ghost use Rattle.std.specs.Prelude.{◌++◌};
    ghost use Rattle.igp_cost.specs.Trees.{Reached};
    ghost use Rattle.igp_cost.specs.Wired.{AreAscending};

    ghost Value = { Reached };

    ghost view = { λ t. record { source = t.source; labels = t.rows ++ t.last } };

    ghost invariant = { λ t. AreAscending (t.rows ++ t.last) };
}

impl Tree {
    /// The tree of labels by the places of their nodes.
    pub(crate) fn from_labels(
        alloc: Global,
        source: Addr,
        nodes: &[(Addr, Asn)],
        labels: &[Option<Label>],
    ) -> Result<Self, AllocError>
        requires rising { IsRising nodes.now }
        requires same_length { length labels.now ≡ length nodes.now }
        ensures { IfOk result (λ t. t ≡ record { source = source; labels = rows_of nodes.now labels.now }) }
    {
        let rows = labelled(alloc, nodes, labels)?;
        Ok(Tree {
            source,
            rows: SharedSeq::of(alloc, rows)?,
            last: SharedSeq::empty(),
        })
    }

    /// The tree of rows by the places of their nodes.
    pub(crate) fn from_rows(
        alloc: Global,
        source: Addr,
        nodes: &[(Addr, Asn)],
        rows: Vec<(Addr, Label)>,
    ) -> Result<Self, AllocError>
        requires rising { IsRising nodes.now }
        requires placed { ArePlaced nodes.now rows.items }
        ensures { IfOk result (λ t. t ≡ record { source = source; labels = rows_of nodes.now (labels_of rows.items) }) }
    {
        let rows = reached_rows(alloc, nodes, rows)?;
        Ok(Tree {
            source,
            rows: SharedSeq::of(alloc, rows)?,
            last: SharedSeq::empty(),
        })
    }

    /// The tree with a label of one address more. None where the address has a label. Where that is above all that have
    /// one, few rows are copied.
    pub(crate) fn with_label(
        &self,
        alloc: Global,
        to: Addr,
        label: Label,
    ) -> Result<Option<Self>, AllocError>
        ensures { IfOk result (λ o. IfSome o (HasOneMore self.now to)) }
    {
        if self.is_long() && self.last.len() < MOST_LAST && self.is_below(to) {
            Ok(Some(self.with_last(alloc, to, label)?))
        } else {
            self.with_inserted(alloc, to, label)
        }
    }

    /// Whether so many rows stand in one list that a copy of them costs more than one more list.
    fn is_long(&self) -> bool {
        self.rows.len() >= MOST_LAST
    }

    /// The tree with a label of one address more, which is above all that have one.
    fn with_last(&self, alloc: Global, to: Addr, label: Label) -> Result<Self, AllocError>
        requires { AreBelow self.now.labels to }
        ensures { IfOk result (HasOneMore self.now to) }
    {
        let last = with_one_more(alloc, self.last.as_slice(), (to, label))?;
        Ok(Tree {
            source: self.source,
            rows: self.rows.share()?,
            last: SharedSeq::of(alloc, last)?,
        })
    }

    /// The tree with a label of one address more, all rows in one list. None where the address has a label.
    fn with_inserted(
        &self,
        alloc: Global,
        to: Addr,
        label: Label,
    ) -> Result<Option<Self>, AllocError>
        ensures { IfOk result (λ o. IfSome o (HasOneMore self.now to)) }
    {
        let rows = self.all_rows(alloc)?;
        match rows.binary_search_by_key(&to.0, |row| row.0.0) {
            Ok(_) => Ok(None),
            Err(at) => Ok(Some(Tree {
                source: self.source,
                rows: SharedSeq::of(alloc, inserted(rows, at, (to, label))?)?,
                last: SharedSeq::empty(),
            })),
        }
    }

    /// All rows, in one list, with room for one more.
    pub(crate) fn all_rows(&self, alloc: Global) -> Result<Vec<(Addr, Label)>, AllocError>
        ensures { IfOk result (λ v. v.items ≡ self.now.labels) }
    {
        let mut rows = with_room(alloc, self.rows.as_slice())?;
        rows.extend_from_slice(self.last.as_slice())?;
        Ok(rows)
    }

    /// Whether an address is above those of all rows.
    fn is_below(&self, to: Addr) -> bool
        ensures { OnTrue result (AreBelow self.now.labels to) }
    {
        let last = self.last.as_slice();
        if last.is_empty() {
            is_above(self.rows.as_slice(), to)
        } else {
            is_above(last, to)
        }
    }

    /// The router that the tree starts from.
    pub fn source(&self) -> Addr
        ensures { result ≡ source_of self.now }
    {
        self.source
    }

    /// The least cost from the source to an address. None where there is no walk.
    pub fn cost(&self, to: Addr) -> Option<u32>
        ensures { result ≡ cost_in self.now to }
    {
        Some(self.label(to)?.cost)
    }

    /// The first hop from the source to an address: the least second address of a walk of least cost. None where there
    /// is no walk.
    pub fn first_hop(&self, to: Addr) -> Option<Addr>
        ensures { result ≡ first_hop_in self.now to }
    {
        Some(self.label(to)?.hop)
    }

    /// The label of an address, if a walk from the source reaches it.
    pub(crate) fn label(&self, to: Addr) -> Option<Label>
        ensures { result ≡ label_in self.now to }
    {
        match label_among(self.rows.as_slice(), to) {
            Some(label) => Some(label),
            None => label_among(self.last.as_slice(), to),
        }
    }

    /// The label of an address, with a guess of the row where it may stand. An address above all rows is not searched
    /// for.
    pub(crate) fn label_near(&self, row: usize, to: Addr) -> Option<Label>
        ensures { result ≡ label_in self.now to }
    {
        if let Some((addr, label)) = self.row(row)
            && addr.0 == to.0
        {
            return Some(label);
        }
        if self.is_below(to) {
            return None;
        }
        self.label(to)
    }

    /// The row at a place. None past the last.
    fn row(&self, at: usize) -> Option<(Addr, Label)>
        ensures row { result ≡ slice_get self.now.labels at }
        ensures ascending { AreAscending self.now.labels }
    {
        let rows = self.rows.as_slice();
        if at < rows.len() {
            return Some(rows[at]);
        }
        let at = at - rows.len();
        let last = self.last.as_slice();
        if at < last.len() {
            Some(last[at])
        } else {
            None
        }
    }

    /// Whether both say the same of every address.
    pub fn is_same(&self, other: &Tree) -> bool
        ensures { IsTrue result ↔ (self.now ≡ other.now) }
    {
        self.source == other.source && self.has_same_rows(other)
    }

    /// Whether both have the same rows, wherever these stand.
    fn has_same_rows(&self, other: &Tree) -> bool
        ensures { IsTrue result ↔ (self.now.labels ≡ other.now.labels) }
    {
        let (rows, last) = (self.rows.as_slice(), self.last.as_slice());
        let (others, later) = (other.rows.as_slice(), other.last.as_slice());
        if others.len() <= rows.len() {
            are_same_in_parts(rows, last, others, later)
        } else {
            are_same_in_parts(others, later, rows, last)
        }
    }

    /// The addresses that are reached, in ascending order, each with its label, where no row stands apart.
    pub(crate) fn rows(&self) -> Option<&[(Addr, Label)]>
        ensures rows { IfSome result (λ rows. rows.now ≡ self.now.labels) }
        ensures ascending { AreAscending self.now.labels }
    {
        if self.last.is_empty() {
            Some(self.rows.as_slice())
        } else {
            None
        }
    }
}

impl Copied for Tree {
    fn copy(&self, _alloc: Global) -> Result<Self, AllocError> {
        self.clone()
    }
}

impl Clone for Tree {
    ghost is_clone = { λ tree again. again ≡ tree };

    fn clone(&self) -> Result<Tree, AllocError> {
        Ok(Tree {
            source: self.source,
            rows: self.rows.share()?,
            last: self.last.share()?,
        })
    }
}

// The label in the row of an address.
fn label_among(rows: &[(Addr, Label)], to: Addr) -> Option<Label>
    requires { AreAscending rows.now }
    ensures { result ≡ lookup (is_at (addr_cmp to)) rows.now }
{
    match rows.binary_search_by_key(&to.0, |row| row.0.0) {
        Ok(at) => Some(rows[at].1),
        Err(_) => None,
    }
}

// Whether an address is above those of all rows.
fn is_above(rows: &[(Addr, Label)], to: Addr) -> bool
    requires { AreAscending rows.now }
    ensures { OnTrue result (AreBelow rows.now to) }
{
    let count = rows.len();
    count == 0 || rows[count - 1].0.0 < to.0
}

// Whether a walk to the node of each row is known.
fn are_known(rows: &[(Addr, Label)]) -> bool
    ensures { OnTrue result (All (λ r. r.1.cost ≢ 4294967295) rows.now) }
{
    rows.iter().all(|row| row.1.cost != NO_WALK)
}

// Room for so many rows, and for up to so many more as a chunk has: as a network grows, its trees take the memory that
// trees before them have left.
fn room_for(rows: usize) -> usize {
    rows.saturating_add(CHUNK) / CHUNK * CHUNK
}

// The rows, with room for one more.
fn with_room(alloc: Global, rows: &[(Addr, Label)]) -> Result<Vec<(Addr, Label)>, AllocError>
    ensures { IfOk result (λ v. v.items ≡ rows.now) }
{
    let mut made = Vec::with_capacity(alloc, room_for(rows.len()))?;
    made.extend_from_slice(rows)?;
    Ok(made)
}

// The rows, with one more at the end.
fn with_one_more(
    alloc: Global,
    rows: &[(Addr, Label)],
    row: (Addr, Label),
) -> Result<Vec<(Addr, Label)>, AllocError>
    ensures { IfOk result (λ v. v.items ≡ rows.now ++ row ∷ []) }
{
    let mut made = with_room(alloc, rows)?;
    made.push(row)?;
    Ok(made)
}

// The rows, with one more at a place.
fn inserted(
    rows: Vec<(Addr, Label)>,
    at: usize,
    row: (Addr, Label),
) -> Result<Vec<(Addr, Label)>, AllocError>
    requires { at ≤ length rows.items }
    ensures { IfOk result (λ v. v.items ≡ insert rows.items at row) }
{
    let mut made = rows;
    made.insert(at, row)?;
    Ok(made)
}

// The row of an address, if it has a label.
fn row(addr: Addr, label: Option<Label>) -> Option<(Addr, Label)>
    ensures { result ≡ row addr label }
{
    Some((addr, label?))
}

// The nodes that have a label, each with its label.
fn labelled(
    alloc: Global,
    nodes: &[(Addr, Asn)],
    labels: &[Option<Label>],
) -> Result<Vec<(Addr, Label)>, AllocError>
    requires same_length { length labels.now ≡ length nodes.now }
    ensures { IfOk result (λ v. v.items ≡ rows_of nodes.now labels.now) }
{
    // No more memory than the rows take: a router may reach few of many nodes.
    let count = labels.iter().filter(|label| label.is_some()).count();
    let mut rows = Vec::with_capacity(alloc, count)?;
    for at in 0..nodes.len() {
        push_some(&mut rows, row(nodes[at].0, labels[at]))?;
    }
    Ok(rows)
}

// The rows of nodes to which a walk is known. Where that is each node, these rows are they.
fn reached_rows(
    alloc: Global,
    nodes: &[(Addr, Asn)],
    rows: Vec<(Addr, Label)>,
) -> Result<Vec<(Addr, Label)>, AllocError>
    requires { ArePlaced nodes.now rows.items }
    ensures { IfOk result (λ v. v.items ≡ rows_of nodes.now (labels_of rows.items)) }
{
    if are_known(&rows) {
        Ok(rows)
    } else {
        known_rows(alloc, nodes, &rows)
    }
}

// The rows of nodes to which a walk is known.
fn known_rows(
    alloc: Global,
    nodes: &[(Addr, Asn)],
    rows: &[(Addr, Label)],
) -> Result<Vec<(Addr, Label)>, AllocError>
    requires same_length { length rows.now ≡ length nodes.now }
    ensures { IfOk result (λ v. v.items ≡ rows_of nodes.now (labels_of rows.now)) }
{
    let count = rows.iter().filter(|row| row.1.cost != NO_WALK).count();
    let mut some = Vec::with_capacity(alloc, count)?;
    for at in 0..nodes.len() {
        push_some(&mut some, row(nodes[at].0, known(rows[at].1)))?;
    }
    Ok(some)
}

// Whether both lists have the same rows.
fn are_same_rows(some: &[(Addr, Label)], others: &[(Addr, Label)]) -> bool
    ensures { IsTrue result ↔ (some.now ≡ others.now) }
{
    if some.len() != others.len() {
        return false;
    }
    for (index, row) in some.iter().enumerate() {
        if !is_same_row(row, &others[index]) {
            return false;
        }
    }
    true
}

// Whether two lists of rows, one after the other, are the same as two others, the first of which is no longer.
fn are_same_in_parts(
    rows: &[(Addr, Label)],
    last: &[(Addr, Label)],
    others: &[(Addr, Label)],
    later: &[(Addr, Label)],
) -> bool
    requires { length others.now ≤ length rows.now }
    ensures { IsTrue result ↔ (rows.now ++ last.now ≡ others.now ++ later.now) }
{
    let (front, middle) = rows.split_at(others.len());
    are_same_rows(front, others) && are_joined(middle, last, later)
}

// Whether two lists of rows, one after the other, are the same as a third.
fn are_joined(first: &[(Addr, Label)], second: &[(Addr, Label)], whole: &[(Addr, Label)]) -> bool
    ensures { IsTrue result ↔ (first.now ++ second.now ≡ whole.now) }
{
    if whole.len() < first.len() {
        return false;
    }
    let (front, back) = whole.split_at(first.len());
    are_same_rows(first, front) && are_same_rows(second, back)
}

// Whether both rows say the same of the same address.
fn is_same_row(row: &(Addr, Label), other: &(Addr, Label)) -> bool
    ensures { IsTrue result ↔ (row.now ≡ other.now) }
{
    row.0 == other.0 && row.1.cost == other.1.cost && row.1.hop == other.1.hop
}
