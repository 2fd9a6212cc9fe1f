//! What every machine does alike, by the definitions of this crate: which events are refused, how routes stand
//! at a router, and what is advertised and sent.

mod advertising;
mod deliveries;
mod feeds;
mod questions;
mod reports;
mod standing;

pub use advertising::{advert_of, change_of, sends};
pub use deliveries::delivery_refusal;
pub use feeds::{fed_message, feed_refusal};
pub use questions::ask_refusal;
pub use reports::{cost_and_hop, held_of};
pub use standing::{
    exclusion_at, is_originated, own_candidate, peer_candidate, peer_standing, put_own,
    put_received,
};
