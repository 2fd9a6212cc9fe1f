//! What is configured: routers, links, sessions and their settings, policies, originated prefixes; the edits that
//! change it; and what follows from it: IGP costs, which sessions are up, and each router's configuration (`SiteConf`).
//!
//! For: `Conf::edit` makes the configuration after an edit, or says the first test that refuses it (`Refusal`).
//! `tables` holds the configuration itself; `kept` holds what is kept beside it over edits: trees of IGP costs, router
//! configurations, the sessions that are down. `Conf` joins both.
//! RFC 4271, 5.1.3 (NEXT_HOP), 6 and 8 (sessions that end); RFC 4456, 6 and 7 (clients, clusters).
//! Differs: sessions come up and go down at once, by their links or IGP costs; a router has one address. The edits,
//! their refusals and the limits are this project's choice.
//! Called by: `cell_engine`, `sim_core` and `plain_simulator` for each step; `reflect_out` reads router configurations.
//! Definitions: `specs/Configuration.antt`, `specs/Edits.antt`, `specs/Costs.antt`, `specs/Refusals.antt`.
#![tactic(auto)]

mod conf;
mod edit;
mod kept;
mod laws;
mod limits;
mod refusal;
mod same_facts;
mod site;
mod tables;

pub use conf::{Conf, EditedConf};
pub use edit::{Edit, Scope};
pub use igp_cost::{MAX_NODES, Metric};
pub use kept::SharedSite;
pub use laws::{
    edits_keep_their_scope, origins_are_listed, peers_are_those_of_sessions, sites_are_of_routers,
};
pub use limits::{MAX_LINKS, MAX_SESSIONS};
pub use refusal::Refusal;
pub use site::{SiteConf, SiteSession};
pub use tables::{End, Ends, Kind, Link, Node, Origination, PolicySide};
