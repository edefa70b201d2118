//! The link as one machine: FOP-1, an uplink, FARM-1 and a downlink, and the sessions that were held over it.
#![tactic(auto)]

mod carriers;
mod configs;
mod events;
mod farm_side;
mod field;
mod fop_side;
mod indications;
pub mod laws;
mod link_carriers;
mod list_carriers;
mod marks;
mod parts;
mod ring_carriers;
mod runs;
mod session_logs;
mod steps;
mod worlds;

pub use carriers::Carrier;
pub use configs::{Config, GREATEST_RING, is_fit};
pub use events::{Event, LinkIndication};
pub use indications::Indications;
pub use link_carriers::LinkCarrier;
pub use list_carriers::ListCarrier;
pub use ring_carriers::RingCarrier;
pub use runs::RunEnd;
pub use worlds::World;
