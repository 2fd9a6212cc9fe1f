//! The definitions of the whole: what is decided, advertised, reported and done at each event. No machine stands here.
//!
//! For: whoever trusts a reply of the program trusts `specs/Machine.antt` and what it names. `Machine` is the trait
//! that each machine keeps, and `machine_rules` has what all of them do alike.
//! RFC 4271, 3.2 (a state keeps the Adj-RIBs-In alone; Loc-RIB and Adj-RIBs-Out are decided afresh), 9.1.1 to 9.1.3 and
//! 9.2; RFC 4456, 6 to 10; RFC 1997.
//! Differs: an event is one step, and each step sends exactly the advertisements that it changed, in the order of
//! prefixes. Out of memory is a refusal that does nothing, and no step of the machine.
//! Called by: `plain_simulator` and `sim_core` are its machines; the texts, the room and the laws speak of it.
//! Definitions, in the order of reading: `specs/Network.antt` (the state), `Decision.antt`, `Advertising.antt`,
//! `Machine.antt` (steps and runs), `Reports.antt`, `Tracing.antt`, `Histories.antt`.
#![tactic(auto)]

mod laws;
mod limits;
mod machine;
mod machine_rules;
mod rows;
mod tracing;

pub use laws::{
    chosen_routes_lead_onward, longest_match_is_longest, traces_follow_looks,
    virtual_peers_decide_nothing,
};
pub use limits::{MOST_FED_COMMUNITIES, MOST_FED_NUMBERS};
pub use machine::Machine;
pub use machine_rules::{
    advert_of, ask_refusal, change_of, cost_and_hop, delivery_refusal, exclusion_at, fed_message,
    feed_refusal, held_of, is_originated, own_candidate, peer_candidate, peer_standing, put_own,
    put_received, sends,
};
pub use rows::{Queue, RouteKey};
pub use session_queue::Direction;
pub use sim_event::{Ask, Event, FedRoute, Feed, Held, News, Reply, Report, TraceEnd};
pub use tracing::{Look, Traced};
