//! The lines of an iCalendar file and the parts of a content line (RFC 5545, section 3.1).
#![tactic(auto)]

mod bytes;
mod content_line;
mod cutting;
mod fault;
mod folds;
mod laws;
mod line_end;
mod lines;
mod logical;
mod param;
mod part_lines;
mod parts;
mod passing;
mod physical;
mod read_line;
mod reads;

pub use content_line::content;
pub use cutting::{first_cut, last_cut};
pub use fault::{BadFold, BadLine};
pub use laws::{
    content_by_grammar, lines_apart, numbers_rise, numbers_within, param_by_grammar,
    params_read_once, part_numbers_within, unfolded_apart, unfolding_undoes_folding,
};
pub use lines::Lines;
pub use logical::Logical;
pub use part_lines::PartLines;
pub use parts::Content;
pub use read_line::ReadLine;
pub use reads::{Every, Reads};
