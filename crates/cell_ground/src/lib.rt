//! The ground on which the code of the second set of rules stands: what a register may hold, and that it comes to
//! where the register is read.
#![tactic(auto)]

mod coming;
mod content;
mod making;

pub use coming::{come_to, come_to_all};
pub use content::Content;
pub use making::made_at;
