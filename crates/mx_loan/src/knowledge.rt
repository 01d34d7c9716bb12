//! What a seat of the loans' table knows, and what a step announces.

use crate::Ghost;
use mx_machine::{Out, Record};
use std::collections::LinkedList;

/// What a seat of the table knows: the kernel's half, an actor's half, or, while a call has joined them,
/// both. Only clauses speak of it: no value of it is ever made.
pub struct Knowledge {
    /// Whether the kernel's half is here: the history, and what each processor is lent.
    pub knows: bool,
    pub history: LinkedList<Record>,
    pub lent: LinkedList<Option<Out>>,
    /// Whether an actor's half is here: its own records, the history as it has seen it, and what it holds
    /// as it was lent.
    pub sits: bool,
    pub actor: u64,
    pub mine: LinkedList<Record>,
    pub seen: LinkedList<Record>,
    pub held: Option<Out>,
    /// Whether it still makes actors' seats, how many it has made, and how many there are to be.
    pub founding: bool,
    pub made: u64,
    pub actors: u64,
    /// The actor's word, if both halves are here.
    pub phase: u64,
}

/// What a step announces: the record, and what the kernel lends the actor after it.
#[derive(Drop)]
pub struct Announcement {
    pub record: Record,
    pub lent: Option<Ghost<Out>>,
}

/// How many actors have a seat, and how many of them, the first ones, may be lent something.
#[derive(Drop)]
pub struct TableSizes {
    pub actors: u64,
    pub cpus: u64,
}
