//! `mx look`: a saved history, looked at forward and back: a session of `Request`s with `Verb`s, typed at a
//! prompt, over a `Sight` with a walker, points, watches and what is happening here; and what text has grown.
//!
//! # A session is a relation
//!
//! Where a search halts is said as the first or the last position that fits (`specs/Searches`), and not as a loop that
//! finds it. So a session is a relation between the lines that are typed and the text that is printed. That they
//! determine it is a law (`session_laws`); so is that going on and going back halt at the same place (`halt_laws`).
#![tactic(auto)]

mod answering;
mod asked_slot;
mod changes;
mod going_until;
mod halt_laws;
mod happening;
mod happening_mark;
mod marks;
mod places;
mod point_request;
mod points;
mod position_word;
mod query;
mod range_change;
mod request;
mod searches;
mod seeking;
mod session;
mod session_laws;
mod showing;
mod sight;
mod slot_word;
mod starts;
mod until_request;
mod verb;
mod watches;
mod world_texts;

pub use answering::{answer_line, services_here};
pub use asked_slot::{limit_here, slot_next};
pub use changes::{Seen, all_bytes, first_change};
pub use halt_laws::{one_halt, searches_return};
pub use marks::{break_places, halts_mark, points_mark};
pub use points::Points;
pub use request::{Request, ends, request_of};
pub use session::{SessionWanted, look};
pub use session_laws::{one_session, why_is_traced};
pub use sight::Sight;
pub use watches::{Watch, Watches};
