//! The rules by which rows follow from rows. The definitions stand in `specs/`, a file a group of
//! rules, in the order and with the numbers of `docs/RULES.md`.
#![tactic(auto)]
