//! What the program does with the files that its command line names: each task, handed to what plays, checks and lists, or run here
//! with a thread for each federate.
#![tactic(auto)]

mod running;
mod threads;

pub use hla_files::{Opener, Source, System, tell, tell_out_of_memory};
pub use running::do_task;
pub use threads::Means;
