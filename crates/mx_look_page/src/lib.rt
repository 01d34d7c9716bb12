//! The data of a page that shows a run: a line of JSON for the run, a line for each record, and a last one. A row has
//! what the trace says of the record, and what of the shown world changed: the states of slots, who is ready, who waits
//! to send.
//!
//! # Inside a document
//!
//! The data stand in a `script` element. No byte of them is below 32 but the line feeds, none is above 126, and none is
//! `<`: so nothing in a name, a symbol or a message can end that element.
//!
//! # Shown worlds
//!
//! What the page shows of a world is a `Shown`. A row has what differs between two of them, so a reader that takes the
//! first one and all rows up to a record has the world after it.
#![tactic(auto)]

mod head;
mod json;
mod row;
mod shown;
mod strip;

pub use head::{RunTerms, push_head, push_tail};
pub use json::push_text;
pub use row::push_row;
pub use shown::{Shown, SlotState};
pub use strip::{StripTerms, push_range, push_strip_tail};
