//! How an event of a run begins: the parameters of its body, as a script draws them, the objects that are made for it,
//! and its frame.
#![tactic(auto)]

mod beginning;
mod drawing;
mod entering;
mod event;
mod labelling;
mod making;
mod picking;

pub use beginning::begin;
