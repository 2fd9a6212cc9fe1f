//! The fast table: a binary trie in an arena, whose values stand beside it. Ways down it have at most 33 steps.

ghost use Rattle.std.specs.Prelude.{◌≡◌, ◌<◌, length, is_some, slice_get, slice_set, Some, None, IfOk, IfErr, OnOk, OnErr};
ghost use Rattle.std.specs.Option.{IfSome, IfNone, option_copied};
ghost use Rattle.std.specs.FinMap as map;
ghost use Rattle.prefix_table.specs.declared.growth.TheConstants.{NEW_NODES};
ghost use Rattle.prefix_table.specs.Numbers.{HasRoom};
ghost use Rattle.prefix_table.specs.Tables.{seen, IsLongestMatch, HasNoMatch, first_after, adjusted};
ghost use Rattle.prefix_table.specs.Trie.{IsClosest};
ghost use Rattle.prefix_table.specs.Values.{IsIndex, table_in};
ghost use Rattle.prefix_table.specs.Ways.{IsNear, IsOnWay};

use crate::adjust::Adjust;
use crate::descent::closest;
use crate::gather::make_room;
use crate::growth::{NEW_NODES, plant, put_place};
use crate::index::{longest_place, next_place, place_near};
use crate::node::{Node, NodeId};
use crate::table::PrefixTable;
use crate::walk::refer_to;
use crate::way::{Way, place_by, way_to};
use net_prefix::{Addr, Prefix};
use seq::{Copied, copy_all};
use std::alloc::{AllocError, Global};
use std::marker::Model;

/// A table in a binary trie. Nodes are made only at prefixes with a value and where two of them part. A node has the
/// place of its prefix's value among the values. There are at most 4,294,967,295 nodes: a table that is full is as one
/// for which there is no memory.
#[derive(Drop)]
pub struct TrieTable<V> {
    nodes: Vec<Node>,
    values: Vec<V>,
    /// Where the prefix stands whose value was replaced or changed last: mostly it is replaced once more, or the one
    /// that came after it is next.
    last: Option<Way>,
}

impl<V> Model for TrieTable<V> {
    ghost use Rattle.std.specs.FinMap as map;
    ghost use Rattle.prefix_table.specs.Tables.{Table, coded_prefix};
    ghost use Rattle.prefix_table.specs.Values.{IsIndex, table_in};
    ghost use Rattle.prefix_table.specs.Ways.{IsOnWay};

    ghost Value = { Table V };

    ghost coded = { map.code coded_prefix V.code };

    ghost view = { λ s. table_in s.nodes.items s.values.items };

    ghost invariant = { λ s. IsIndex s.nodes.items s.values.items × IsOnWay s.nodes.items s.last };
}

/// The prefix's value. A prefix that was looked for is known, if there is one.
fn find_in<'a, V>(
    nodes: &[Node],
    values: &'a [V],
    known: &Option<Way>,
    prefix: Prefix,
) -> Option<&'a V>
    requires index { IsIndex nodes.now values.now }
    requires known { IsOnWay nodes.now known.now }
    ensures { option_copied result ≡ map.get (table_in nodes.now values.now) prefix }
{
    let near = way_to(nodes, known, prefix);
    match place_by(nodes, &near, prefix) {
        Some(place) => Some(&values[place]),
        None => None,
    }
}

/// Writes the value to its place, and hands back the one before.
fn write<V>(values: &mut Vec<V>, place: usize, value: V) -> V
    requires { place < length values.old.items }
    ensures before { slice_get values.old.items place ≡ Some result }
    ensures written { values.new.items ≡ slice_set values.old.items place value }
{
    let there = &mut values[place];
    std::mem::replace(there, value)
}

/// Gives a prefix that has none this value. The node that comes closest to it is known, and all room is made.
fn add_in<V>(nodes: &mut Vec<Node>, values: &mut Vec<V>, near: NodeId, prefix: Prefix, value: V)
    requires index { IsIndex nodes.old.items values.old.items }
    requires near { IsClosest nodes.old.items prefix near.0 }
    requires node_room { HasRoom nodes.old NEW_NODES }
    requires value_room { HasRoom values.old 1 }
    ensures index { IsIndex nodes.new.items values.new.items }
    ensures inserted { table_in nodes.new.items values.new.items ≡ map.insert
        (table_in nodes.old.items values.old.items) prefix value }
{
    put_place(nodes, near, prefix, values.len());
    values.push_reserved(value);
}

/// Gives the prefix this value. The node that comes closest to it is known. All room is made before a node is linked.
fn put_near<V: Drop>(
    nodes: &mut Vec<Node>,
    values: &mut Vec<V>,
    near: NodeId,
    prefix: Prefix,
    value: V,
) -> Result<Option<V>, V>
    requires index { IsIndex nodes.old.items values.old.items }
    requires near { IsClosest nodes.old.items prefix near.0 }
    ensures index { IsIndex nodes.new.items values.new.items }
    ensures before { IfOk result (λ before. before ≡ map.get (table_in nodes.old.items values.old.items) prefix) }
    ensures inserted { OnOk result (table_in nodes.new.items values.new.items ≡ map.insert
        (table_in nodes.old.items values.old.items) prefix value) }
    ensures absent { OnErr result (map.get (table_in nodes.old.items values.old.items) prefix ≡ None) }
    ensures back { IfErr result (λ back. back ≡ value) }
    ensures same { OnErr result
        (table_in nodes.new.items values.new.items ≡ table_in nodes.old.items values.old.items) }
{
    if let Some(place) = place_near(nodes, near, prefix) {
        return Ok(Some(write(values, place, value)));
    }
    let (Ok(()), Ok(())) = (make_room(nodes, NEW_NODES), make_room(values, 1)) else {
        return Err(value);
    };
    add_in(nodes, values, near, prefix, value);
    Ok(None)
}

/// Gives the prefix this value, in a table without a node.
fn put_first<V: Drop>(
    nodes: &mut Vec<Node>,
    values: &mut Vec<V>,
    prefix: Prefix,
    value: V,
) -> Result<Option<V>, V>
    requires index { IsIndex nodes.old.items values.old.items }
    requires none { length nodes.old.items ≡ 0 }
    ensures index { IsIndex nodes.new.items values.new.items }
    ensures before { IfOk result (λ before. before ≡ map.get (table_in nodes.old.items values.old.items) prefix) }
    ensures inserted { OnOk result (table_in nodes.new.items values.new.items ≡ map.insert
        (table_in nodes.old.items values.old.items) prefix value) }
    ensures absent { OnErr result (map.get (table_in nodes.old.items values.old.items) prefix ≡ None) }
    ensures back { IfErr result (λ back. back ≡ value) }
    ensures same { OnErr result
        (table_in nodes.new.items values.new.items ≡ table_in nodes.old.items values.old.items) }
{
    let Ok(()) = plant(nodes) else {
        return Err(value);
    };
    let near = closest(nodes, NodeId(0), prefix);
    put_near(nodes, values, near, prefix, value)
}

/// Gives the prefix this value. The node that comes closest to it is known, if there is a node.
fn put_in<V: Drop>(
    nodes: &mut Vec<Node>,
    values: &mut Vec<V>,
    near: &Option<Way>,
    prefix: Prefix,
    value: V,
) -> Result<Option<V>, V>
    requires index { IsIndex nodes.old.items values.old.items }
    requires near { IsNear nodes.old.items prefix near.now }
    ensures index { IsIndex nodes.new.items values.new.items }
    ensures before { IfOk result (λ before. before ≡ map.get (table_in nodes.old.items values.old.items) prefix) }
    ensures inserted { OnOk result (table_in nodes.new.items values.new.items ≡ map.insert
        (table_in nodes.old.items values.old.items) prefix value) }
    ensures absent { OnErr result (map.get (table_in nodes.old.items values.old.items) prefix ≡ None) }
    ensures back { IfErr result (λ back. back ≡ value) }
    ensures same { OnErr result
        (table_in nodes.new.items values.new.items ≡ table_in nodes.old.items values.old.items) }
{
    match *near {
        Some(way) => put_near(nodes, values, way.at, prefix, value),
        None => put_first(nodes, values, prefix, value),
    }
}

/// Gives a prefix that has a value this one. The node that comes closest to it is known, if there is a node.
fn replace_in<V>(
    nodes: &[Node],
    values: &mut Vec<V>,
    near: &Option<Way>,
    prefix: Prefix,
    value: V,
) -> Result<V, V>
    requires index { IsIndex nodes.now values.old.items }
    requires near { IsNear nodes.now prefix near.now }
    ensures index { IsIndex nodes.now values.new.items }
    ensures before { IfOk result (λ before. map.get (table_in nodes.now values.old.items) prefix ≡ Some before) }
    ensures replaced { OnOk result
        (table_in nodes.now values.new.items ≡ map.insert (table_in nodes.now values.old.items) prefix value) }
    ensures back { IfErr result (λ back. back ≡ value) }
    ensures absent { OnErr result (map.get (table_in nodes.now values.old.items) prefix ≡ None) }
    ensures same { OnErr result (values.new.items ≡ values.old.items) }
{
    match place_by(nodes, near, prefix) {
        Some(place) => Ok(write(values, place, value)),
        None => Err(value),
    }
}

/// Changes the prefix's value where it stands, and says whether it has one. The node that comes closest to it is known,
/// if there is a node.
fn adjust_in<V, A: Adjust<V>>(
    nodes: &[Node],
    values: &mut Vec<V>,
    near: &Option<Way>,
    prefix: Prefix,
    change: &A,
) -> bool
    requires index { IsIndex nodes.now values.old.items }
    requires near { IsNear nodes.now prefix near.now }
    ensures index { IsIndex nodes.now values.new.items }
    ensures there { result ≡ is_some (map.get (table_in nodes.now values.old.items) prefix) }
    ensures adjusted { table_in nodes.now values.new.items ≡ adjusted (A.after change.now) prefix
        (table_in nodes.now values.old.items) }
{
    match place_by(nodes, near, prefix) {
        Some(place) => {
            change.adjust(&mut values[place]);
            true
        }
        None => false,
    }
}

/// The longest key of at most this length that contains the address.
fn longest_in<'a, V>(
    nodes: &[Node],
    values: &'a [V],
    addr: Addr,
    most: u8,
) -> Option<(Prefix, &'a V)>
    requires { IsIndex nodes.now values.now }
    ensures found { IfSome result (λ e. IsLongestMatch (table_in nodes.now values.now) addr most e.0 e.1.now) }
    ensures none { IfNone result (HasNoMatch (table_in nodes.now values.now) addr most) }
{
    match longest_place(nodes, addr, most) {
        Some(key) => Some((key.0, &values[key.1])),
        None => None,
    }
}

/// The first key after this prefix, or the first of all.
fn next_in<'a, V>(nodes: &[Node], values: &'a [V], after: Option<Prefix>) -> Option<(Prefix, &'a V)>
    requires { IsIndex nodes.now values.now }
    ensures { seen result ≡ first_after (table_in nodes.now values.now) after }
{
    match next_place(nodes, after) {
        Some(key) => Some((key.0, &values[key.1])),
        None => None,
    }
}

impl<V: Drop> PrefixTable<V> for TrieTable<V> {
    ghost table = { λ s. s };

    fn new(alloc: Global) -> Self {
        TrieTable {
            nodes: Vec::new(alloc),
            values: Vec::new(alloc),
            last: None,
        }
    }

    fn get(&self, prefix: Prefix) -> Option<&V> {
        find_in(&self.nodes, &self.values, &self.last, prefix)
    }

    fn insert(&mut self, prefix: Prefix, value: V) -> Result<Option<V>, V> {
        let near = way_to(&self.nodes, &self.last, prefix);
        self.last = None;
        put_in(&mut self.nodes, &mut self.values, &near, prefix, value)
    }

    fn replace(&mut self, prefix: Prefix, value: V) -> Result<V, V> {
        self.last = way_to(&self.nodes, &self.last, prefix);
        replace_in(&self.nodes, &mut self.values, &self.last, prefix, value)
    }

    fn adjust<A: Adjust<V>>(&mut self, prefix: Prefix, change: &A) -> bool {
        self.last = way_to(&self.nodes, &self.last, prefix);
        adjust_in(&self.nodes, &mut self.values, &self.last, prefix, change)
    }

    fn longest(&self, addr: Addr, most: u8) -> Option<(Prefix, &V)> {
        longest_in(&self.nodes, &self.values, addr, most)
    }

    fn next_after(&self, after: Option<Prefix>) -> Option<(Prefix, &V)> {
        next_in(&self.nodes, &self.values, after)
    }

    fn entries(&self, alloc: Global) -> Result<Vec<(Prefix, &V)>, AllocError> {
        refer_to(alloc, &self.nodes, &self.values)
    }
}

impl<V: Copied> Copied for TrieTable<V> {
    fn copy(&self, alloc: Global) -> Result<Self, AllocError> {
        Ok(TrieTable {
            nodes: copy_all(alloc, &self.nodes)?,
            values: copy_all(alloc, &self.values)?,
            last: None,
        })
    }
}
