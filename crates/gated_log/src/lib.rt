//! A log in a disk: records one behind another, each behind a gate of its own. A
//! record counts where its gate is open, and a gate is opened by a write of its own,
//! once its record is there to stay; so a crash leaves a record whole, or none.
#![tactic(auto)]

mod closing;
mod law;
mod log;
mod reading;
mod staging;
mod staying;

pub use closing::{begun_log, closed_log};
pub use law::bytes_are_one_log;
pub use log::{Gate, Log};
pub use reading::{begins_as_log, record_at, settled_length};
