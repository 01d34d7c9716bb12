//! Only tests: commands over machines, texts about them, and writers that fail.
#![tactic(auto)]

#[cfg(test)]
mod asking;
#[cfg(test)]
mod commands;
#[cfg(test)]
mod cuts;
#[cfg(test)]
mod debugging;
#[cfg(test)]
mod files;
#[cfg(test)]
mod narrow;
#[cfg(test)]
mod texts;
