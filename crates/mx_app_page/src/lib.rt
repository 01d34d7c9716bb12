//! `mx page`: a document that shows a saved history in a browser. It has a fixed part, which is made of `page/`, and
//! between its two halves the data.
//!
//! # One walk
//!
//! The records above the first row are made without a look at them. Then each record is made, looked at and printed
//! before the next one, as in a trace: so a history of any length takes the memory of one row. What is known only at
//! the end, as which record is refused, stands in the last line.
#![tactic(auto)]

mod fixed;
mod printing;
mod reading;
mod strips;

pub use printing::page;
pub use reading::rows_tell_enough;
pub use strips::swept_page;
