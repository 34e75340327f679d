// The list of calls of document 01: its records, the check of its chain, and the text of a whole run.
#![tactic(auto)]

mod fields; // fields.rt: the parts of a record
mod perform; // perform.rt: what the call of a record does
mod text; // text.rt: the chain, the lines, the whole run

pub use text::{BRIEF_TEXT, MOST_BYTES, MOST_TEXT, check, run};
