//! Rules 40 to 47 in code: what the events of components, callbacks and handed objects lead to.
#![tactic(auto)]

mod absent;
mod application;
mod arrival;
mod events_reached;
mod given_back;
mod handed;
mod known;
mod life;
mod numbers;
mod present;
mod returned;
mod rules;

pub use rules::EventRules;
