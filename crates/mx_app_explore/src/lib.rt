//! `mx explore`: the outcomes of every schedule that departs from the order of turns in few places.
#![tactic(auto)]

mod exploring;
mod found_text;

pub use exploring::{ExploreNames, ExploreWanted, Found, explore};
