//! Rules 40, 42, 43 and 45 of the second set in code, with what is held where events begin their bodies: what the
//! events of components, callbacks and handed objects lead to. What the rules of events give besides is kept from
//! the first set.
#![tactic(auto)]

mod callbacks;
mod clicks;
mod events_reached;
mod given_back;
mod indexed;
mod life;
mod numbers;
mod receiver;
mod rules;

pub use rules::CellEventRules;
