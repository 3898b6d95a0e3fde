//! How files are asked for, read and answered: what becomes of each file, and the lines of those that are not
//! listed.
#![tactic(auto)]

mod answered;
mod file_pieces;
mod finding;
mod outcome;
mod reading;
mod refusal;
mod shown;
mod status;
mod zone_laws;

pub use reading::{Reading, read_all};
pub use shown::add_shown;
pub use status::Status;
pub use zone_laws::without_zones;
