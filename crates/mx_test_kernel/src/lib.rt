//! Only tests: worked rows of the process layer and of a machine, which need no command.
#![tactic(auto)]

#[cfg(test)]
mod breakpoints;
#[cfg(test)]
mod calls_by_hand;
#[cfg(test)]
mod events_by_hand;
#[cfg(test)]
mod kernel_numbers;
#[cfg(test)]
mod limits;
#[cfg(test)]
mod machines;
#[cfg(test)]
mod pages;
#[cfg(test)]
mod queues;
#[cfg(test)]
mod tables;
#[cfg(test)]
mod traps;
#[cfg(test)]
mod windows_by_hand;
