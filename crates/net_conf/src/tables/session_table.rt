//! The sessions, and whether each is enabled.

ghost use Rattle.std.specs.Prelude.{◌≡◌, nat_le, [], min, length, map, filter, is_some, IfOk, OnOk, OnErr};
ghost use Rattle.std.specs.List.Sorted.{IsStrictlySortedBy};
ghost use Rattle.std.specs.Map.{keys_of, lookup};
ghost use Rattle.std.specs.BTreeMap.{insert_entry, is_at};
ghost use Rattle.shared_map.specs.EntryChunks.{entries_in};
ghost use Rattle.net_conf.specs.Configuration.{ends_cmp, is_end};
ghost use Rattle.net_conf.specs.Sites.{peer_in};

use crate::tables::Ends;
use net_prefix::Addr;
use seq::Copied;
use shared_map::{ChunkedMap, SharedMap};
use std::alloc::{AllocError, Global};
use std::marker::Model;

/// Whether a session is enabled.
#[derive(Clone, Copy)]
struct Enabled {
    is: bool,
}

impl Model for Enabled {
    ghost use Rattle.std.specs.Prelude.{Bool};

    ghost Value = { Bool };

    ghost view = { λ e. e.is };

    ghost inverse = { λ b. record { is = b } };
}

impl Enabled {
    /// Whether it is.
    fn get(self) -> bool
        ensures { result ≡ self }
    {
        self.is
    }
}

impl Copied for Enabled {
    fn copy(&self, _alloc: Global) -> Result<Enabled, AllocError> {
        Ok(*self)
    }
}

/// The sessions in the order of their ends, and whether each is enabled. A copy shares them.
#[derive(Drop)]
pub(crate) struct SessionTable {
    sessions: ChunkedMap<Ends, Enabled>,
}

impl Model for SessionTable {
    ghost use Rattle.std.specs.Prelude.{List, Bool};
    ghost use Rattle.net_conf.specs.declared.tables.Ends.{Ends};

    ghost Value = { List (Ends × Bool) };

    ghost view = { λ s. s.sessions };
}

impl SessionTable {
    /// None. It takes no memory.
    pub(crate) fn new() -> Self
        ensures { result ≡ [] }
    {
        SessionTable {
            sessions: ChunkedMap::new(),
        }
    }

    /// A call gives the caller's proof that they are in order.
    pub(crate) fn order(&self)
        ensures { IsStrictlySortedBy ends_cmp (keys_of self.now) }
    {
        self.sessions.order();
    }

    /// Whether the session is enabled, where there is one of these ends.
    pub(crate) fn get(&self, ends: Ends) -> Option<bool>
        ensures { result ≡ lookup (is_at (ends_cmp ends)) self.now }
    {
        match self.sessions.get(&ends) {
            Some(enabled) => Some(enabled.get()),
            None => None,
        }
    }

    /// Whether there is a session of these ends.
    pub(crate) fn contains(&self, ends: Ends) -> bool
        ensures { result ≡ is_some (lookup (is_at (ends_cmp ends)) self.now) }
    {
        self.sessions.contains_key(&ends)
    }

    /// Puts the session of these ends in its place, enabled or not. An error changes nothing.
    pub(crate) fn insert(
        &mut self,
        alloc: Global,
        ends: Ends,
        enabled: bool,
    ) -> Result<(), AllocError>
        ensures ok { OnOk result (self.new ≡ insert_entry ends_cmp self.old ends enabled) }
        ensures err { OnErr result (self.new ≡ self.old) }
    {
        self.sessions.put(alloc, ends, Enabled { is: enabled })
    }

    /// One owner more of the same. It takes no memory.
    pub(crate) fn share(&self) -> Result<Self, AllocError>
        ensures { IfOk result (λ other. other ≡ self.now) }
    {
        Ok(SessionTable {
            sessions: self.sessions.share()?,
        })
    }

    /// The ends of all sessions, in order.
    pub(crate) fn ends(&self, alloc: Global) -> Result<Vec<Ends>, AllocError>
        ensures { IfOk result (λ v. v.items ≡ keys_of self.now) }
    {
        ends_of(alloc, self.sessions.chunks())
    }

    /// The peers with which the address has a session, in order of address.
    pub(crate) fn peers_of(&self, alloc: Global, addr: Addr) -> Result<Vec<Addr>, AllocError>
        ensures { IfOk result (λ v. v.items ≡ map (λ e. peer_in addr e.0) (filter (λ e. is_end addr e.0) self.now)) }
    {
        peers_of(alloc, self.sessions.chunks(), addr)
    }

    /// Whether the address has so many sessions, or more. It takes no memory.
    pub(crate) fn has_many(&self, addr: Addr, many: usize) -> bool
        ensures { result ≡ nat_le many (length (filter (λ e. is_end addr e.0) self.now)) }
    {
        count_up_to(self.sessions.chunks(), addr, many) >= many
    }
}

/// The ends of the sessions of all chunks.
fn ends_of(alloc: Global, chunks: &[SharedMap<Ends, Enabled>]) -> Result<Vec<Ends>, AllocError>
    ensures { IfOk result (λ v. v.items ≡ keys_of (entries_in chunks.now)) }
{
    let mut ends = Vec::new(alloc);
    for chunk in chunks {
        let more = ends_in(alloc, chunk.as_slice())?;
        ends.extend_from_slice(&more)?;
    }
    Ok(ends)
}

/// The ends of the sessions.
fn ends_in(alloc: Global, sessions: &[(Ends, Enabled)]) -> Result<Vec<Ends>, AllocError>
    ensures { IfOk result (λ v. v.items ≡ keys_of sessions.now) }
{
    sessions.iter().map(|entry| entry.0).collect(alloc)
}

/// The peers of the address in the sessions of all chunks.
fn peers_of(
    alloc: Global,
    chunks: &[SharedMap<Ends, Enabled>],
    addr: Addr,
) -> Result<Vec<Addr>, AllocError>
    ensures { IfOk result (λ v.
        v.items ≡ map (λ e. peer_in addr e.0) (filter (λ e. is_end addr e.0) (entries_in chunks.now))) }
{
    let mut peers = Vec::new(alloc);
    for chunk in chunks {
        let more = peers_in(alloc, chunk.as_slice(), addr)?;
        peers.extend_from_slice(&more)?;
    }
    Ok(peers)
}

/// The peers of the address in the sessions.
fn peers_in(
    alloc: Global,
    sessions: &[(Ends, Enabled)],
    addr: Addr,
) -> Result<Vec<Addr>, AllocError>
    ensures { IfOk result (λ v.
        v.items ≡ map (λ e. peer_in addr e.0) (filter (λ e. is_end addr e.0) sessions.now)) }
{
    sessions
        .iter()
        .filter(|entry| is_end(addr, entry.0))
        .map(|entry| peer_in(addr, entry.0))
        .collect(alloc)
}

/// How many sessions of all chunks are of the address; the count stops at this many.
fn count_up_to(chunks: &[SharedMap<Ends, Enabled>], addr: Addr, many: usize) -> usize
    ensures { result ≡ min (length (filter (λ e. is_end addr e.0) (entries_in chunks.now))) many }
{
    let mut count: usize = 0;
    for chunk in chunks {
        count = many.min(count.saturating_add(count_in(chunk.as_slice(), addr)));
    }
    count
}

/// How many of the sessions are of the address.
fn count_in(sessions: &[(Ends, Enabled)], addr: Addr) -> usize
    ensures { result ≡ length (filter (λ e. is_end addr e.0) sessions.now) }
{
    sessions
        .iter()
        .filter(|entry| is_end(addr, entry.0))
        .count()
}

/// Whether the address is an end.
fn is_end(addr: Addr, ends: Ends) -> bool
    ensures { result ≡ is_end addr ends }
{
    ends.low == addr || ends.high == addr
}

/// The other end.
fn peer_in(router: Addr, ends: Ends) -> Addr
    ensures { result ≡ peer_in router ends }
{
    if ends.low == router {
        ends.high
    } else {
        ends.low
    }
}
