//! That the units which `dex_maker` writes for the lines of a listing are decoded by `dex_code` as these lines.
#![tactic(auto)]

mod law;

pub use law::lines_are_decoded_back;
