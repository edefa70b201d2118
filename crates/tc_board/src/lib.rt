//! The rehearsal spacecraft: reports of request verification (ECSS-E-ST-70-41C, service 1), the on-board schedule
//! (service 11), and the schedule's mirror on the ground.
#![tactic(auto)]

mod boards;
pub mod laws;
mod logs;
mod mirrors;
mod outcomes;
mod schedules;

pub use boards::Board;
pub use mirrors::Mirror;
pub use schedules::{Schedule, ScheduleFault};
