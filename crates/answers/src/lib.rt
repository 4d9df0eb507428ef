// Answers as text: each is put piece by piece into a buffer whose front waits to be written out.
//
// A piece is one line or a few. Every function here takes how much of the buffer waits, and answers how much waits then.
#![tactic(auto)]

mod pieces; // pieces.rt: a line, a value, a mark
mod sets; // sets.rt: sets of marks
mod replies; // replies.rt: what edits and questions answer
mod listing; // listing.rt: stretches and anchors
mod settings; // settings.rt: settings
mod reports; // reports.rt: what a log has come to
mod plans; // plans.rt: plans
mod strips; // strips.rt: the cells of a strip
mod texts; // texts.rt: texts

pub use listing::{put_anchor, put_list, put_needed};
pub use pieces::{accept, none, refuse, say};
pub use plans::put_proposal;
pub use replies::{
    aged_or, first_or, put_asked, put_count, put_extent, put_set_asked, put_shared, put_shown,
    put_told, put_touched,
};
pub use reports::put_report;
pub use sets::set_or;
pub use settings::{put_found, put_taken};
pub use strips::strip_or;
pub use texts::{restored_or, text_or};
