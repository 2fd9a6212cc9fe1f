//! The state, as the engine keeps it.

ghost use Rattle.std.specs.Prelude.{◌≡◌, is_some, IfOk};
ghost use Rattle.std.specs.Option.{option_copied, option_map};
ghost use Rattle.net_conf.specs.Configured.{IsConfigured};
ghost use Rattle.net_conf.specs.RouterSites.{router_site, site_made};
ghost use Rattle.reference_machine.specs.Machine.{nothing};
ghost use Rattle.cell_engine.specs.RouterTables.{value_at, next_of};
ghost use Rattle.std.specs.FinMap.Entries.{find};
ghost use Rattle.net_prefix.specs.Address.{addr_cmp};
ghost use Rattle.cell_engine.specs.State.{network, IsConsistent};
ghost use Rattle.cell_engine.specs.Reporting.{AreOfPrefixes};
ghost use Rattle.cell_engine.specs.Changes.{AreOverSessionsUp};
ghost use Rattle.cell_engine.specs.Sharing.{conf_shown};

mod held_conf;
mod router_test;

use crate::hop_table::HopTable;
use crate::route_cell::Cell;
use crate::router_tables::RouterTables;
use crate::state::held_conf::HeldConf;
use crate::state::router_test::is_router;
use net_conf::{Conf, SiteConf};
use net_prefix::{Addr, Prefix};
use prefix_table::PrefixTable;
use route_select::Chosen;
pub use router_test::is_router_again;
use seq::Copied;
use session_queue::{Direction, Queues};
use shared_map::ChunkedSet;
use std::alloc::{AllocError, Global};
use std::hash::RandomState;
use std::marker::Model;
use std::sync::Arc;

/// What is configured, what was received, by router and prefix with the choice among it, and what is on its way.
#[derive(Drop)]
pub struct State<S: Chosen, T: PrefixTable<Cell<S>>> {
    pub(crate) alloc: Global,
    pub(crate) conf: HeldConf,
    pub(crate) tables: RouterTables<Cell<S>, HopTable<S, T>>,
    /// Those of all sessions.
    pub(crate) directions: ChunkedSet<Direction>,
    pub(crate) queues: Queues,
}

impl<S: Chosen, T: PrefixTable<Cell<S>>> Model for State<S, T> {
    ghost use Rattle.std.specs.Prelude.{◌≡◌};
    ghost use Rattle.std.specs.Coded.{codes};
    ghost use Rattle.cell_engine.specs.State.{State, IsConsistent};
    ghost use Rattle.cell_engine.specs.Reporting.{AreOfPrefixes};
    ghost use Rattle.cell_engine.specs.Changes.{AreOverSessionsUp};
    ghost use Rattle.cell_engine.specs.Coding.{coded_table};

    ghost Value = { State };

    ghost coded = { Prim.hlevel (codes, coded_table) };

    ghost view = { λ s. record { conf = s.conf; tables = s.tables; directions = s.directions; queues = s.queues } };

    ghost invariant = { λ s.
        IsConsistent (record { conf = s.conf; tables = s.tables; directions = s.directions; queues = s.queues }) ×
        AreOfPrefixes s.tables × AreOverSessionsUp s.conf s.tables };
}

impl<S: Chosen, T: PrefixTable<Cell<S>>> State<S, T> {
    /// Nothing is configured, received or on its way. It takes no memory. Nobody who does not know the keys can make it
    /// slow by a choice of attributes; with none, whoever knows the program can.
    pub fn new(alloc: Global, keys: Option<RandomState>) -> Self
        ensures { network result ≡ nothing }
    {
        State {
            alloc,
            conf: HeldConf::new(alloc),
            tables: RouterTables::new(alloc),
            directions: ChunkedSet::new(),
            queues: Queues::new(alloc, keys),
        }
    }

    /// A call gives the caller's proof what holds of every state.
    pub fn facts(&self)
        ensures sound { IsConsistent self.now }
        ensures configured { IsConfigured self.now.conf }
        ensures prefixes { AreOfPrefixes self.now.tables }
        ensures sessions { AreOverSessionsUp self.now.conf self.now.tables }
    {
        self.conf.facts();
    }

    /// What is configured.
    pub fn conf(&self) -> &Conf
        ensures { result.now ≡ self.now.conf }
    {
        self.conf.get()
    }

    /// What is configured, to be kept while the state goes on: one owner more, and no copy. None until an edit was
    /// accepted. The error is that 2^63 owners share it.
    pub fn share(&self) -> Result<Option<Arc<Conf>>, AllocError>
        ensures { IfOk result (λ share. conf_shown share ≡ self.now.conf) }
    {
        self.conf.share()
    }

    /// What is on its way.
    pub fn queues(&self) -> &Queues
        ensures { result.now ≡ self.now.queues }
    {
        &self.queues
    }

    /// The router's site, where the configuration keeps none: of a router that ends a session it does, and this makes
    /// none.
    pub fn made_site(&self, router: Addr) -> Result<Option<SiteConf>, AllocError>
        ensures { IfOk result (λ made. made ≡ site_made self.now.conf router) }
    {
        self.conf().made_site(self.alloc, router)
    }

    /// The router's site: what `made_site` made, or the one that is kept. None where a virtual peer stands, or nobody.
    pub fn site<'a>(&'a self, router: Addr, made: &'a Option<SiteConf>) -> Option<&'a SiteConf>
        requires { made.now ≡ site_made self.now.conf router }
        ensures { option_copied result ≡ router_site self.now.conf router }
    {
        self.conf().site_in(made, router)
    }

    /// Whether a router stands at the address.
    pub fn has_router(&self, address: Addr) -> bool
        ensures { result ≡ is_some (router_site self.now.conf address) }
    {
        is_router(self.conf(), address)
    }

    /// The cells of the router, by prefix. None where it has none.
    pub fn table(&self, router: Addr) -> Option<&T>
        ensures { option_map T.table (option_copied result) ≡ find addr_cmp router self.now.tables }
    {
        match self.tables.table(router) {
            Some(table) => Some(table.cells()),
            None => None,
        }
    }

    /// The next address that has a table, past this one, or the first of all.
    pub fn next_table(&self, past: Option<Addr>) -> Option<Addr>
        ensures { result ≡ next_of self.now.tables past }
    {
        self.tables.next_table(past)
    }

    /// The cell of the router and prefix, where there is one.
    pub fn cell(&self, router: Addr, prefix: Prefix) -> Option<&Cell<S>>
        ensures { option_copied result ≡ value_at router prefix self.now.tables }
    {
        self.tables.get(router, prefix)
    }
}

/// The same state once more, for as long as it is wanted: the configuration and the attributes get one owner more, and
/// what was received and what is on its way is copied.
impl<S: Chosen + Drop, T: PrefixTable<Cell<S>> + Copied> Copied for State<S, T> {
    fn copy(&self, alloc: Global) -> Result<Self, AllocError> {
        let conf = self.conf.copy(alloc)?;
        let tables = self.tables.copy(alloc)?;
        let directions = self.directions.share()?;
        let queues = self.queues.copy(alloc)?;
        Ok(State {
            alloc,
            conf,
            tables,
            directions,
            queues,
        })
    }
}
