//! Loans: a process goes out to an actor, and comes back advanced by exactly the steps that it counts.
//!
//! # What has to be known
//!
//! A process runs on a thread without the lock, while others change the kernel. When it comes back, the kernel records
//! a number of steps and nothing else, so it has to be the process that went out, after so many steps. Nothing is
//! copied or compared for this: it follows from types. A `Loan` can be run, which counts, and brought back, and nothing
//! else; it can't be copied or dropped.
//!
//! # Why a table
//!
//! What the kernel knows (the history, and what is lent) and what a processor's thread knows (its own records, and what
//! it holds) have to agree, though neither may look at the other. It works like a library's cards: the librarian's list
//! shows what is lent, and each reader's card what the reader has. List and cards are seats at a table of the kit
//! (`atomic_table`), which has one word for each actor. The rule says what each word means (`WordMeans`): 0, at home,
//! the card is empty and its records are the actor's in the history; 2, lent out, both name the process that went; 1,
//! 3, 4 and 6 are between. A call joins the list's seat with the card's, makes its steps on the word (`kinds`,
//! `steps`), each of which is proved to preserve the rule, and parts them again. So between two calls a word is 0 or 2.
//!
//! # What it costs
//!
//! What a seat knows is `Ghost`: clauses read it, and it has no bytes. So when the program runs, a table is a word for
//! each actor, and a step is one write of it.
#![tactic(auto)]

mod desk;
mod ghost_value;
mod kinds;
mod knowledge;
mod loan;
mod seat;
mod steps;

pub use desk::Desk;
pub use ghost_value::Ghost;
pub use loan::Loan;
pub use seat::ActorSeat;
