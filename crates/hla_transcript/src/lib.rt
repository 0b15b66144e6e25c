//! What is printed: the outcomes of steps, and the list of what a FED file declares.
#![tactic(auto)]

mod listing;
mod printing;
mod text;
mod watched;
mod writing;

pub use listing::{ListFault, list};
pub use printing::print_line;
pub use text::Text;
pub use watched::Watched;
pub use writing::{WriteFailed, write_whole};
