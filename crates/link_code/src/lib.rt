//! The code of the methods: decoded and tested, and then lifted to steps over the app, with the statics that it names.
#![tactic(auto)]

mod coded;
mod finish;
mod lift;
mod methods;
mod naming;
mod scope;
mod static_list;
mod statics;

pub use coded::{Coded, Coding, codes_of};
pub use finish::finished;
