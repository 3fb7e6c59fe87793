//! What the DEX files of an app say of the access to members of its
//! classes: who sees a method, and which static fields there are.
#![tactic(auto)]

mod access;
mod flags;

pub use access::{Accesses, ClassAccess, MethodAccess, accesses_of};
