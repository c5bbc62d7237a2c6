#![tactic(auto)]

// Answers on a link sheet in words: families and tree lines with the names of their parts, means, a sheet as text, refusals. No contract says which
// bytes are written; stored outputs do.
mod asked;
mod heads;
mod limits;
mod line_fault;
mod listing;
mod means;
mod names;
mod refusal;
mod sheet_text;
mod slot_counts;
mod tables;
mod tree_rows;

pub use asked::Asked;
pub use limits::{LINKS, NAMES, SLOTS};
pub use line_fault::line_words;
pub use listing::{Listing, families};
pub use means::{by_mean, mean};
pub use names::{find, name};
pub use refusal::{tell, tell_run};
pub use sheet_text::show;
pub use slot_counts::slots;
pub use tables::in_tables;
pub use tree_rows::tree;
