//! Only tests: what a shared machine answers, call by call and by its loops, from one thread and from several; and the
//! gate of a run.
#![tactic(auto)]

#[cfg(test)]
mod counts;
#[cfg(test)]
mod exchanges;
#[cfg(test)]
mod gates;
#[cfg(test)]
mod glances;
#[cfg(test)]
mod killed;
#[cfg(test)]
mod loops;
#[cfg(test)]
mod machine;
#[cfg(test)]
mod pair;
#[cfg(test)]
mod run_gate;
#[cfg(test)]
mod threads;
#[cfg(test)]
mod together;
