//! What the program does with the files of names without threads: it reads a FED file and a script, each from a file of its own or
//! both from one input, plays the script, has its records judged, or lists what the FED file declares; and the one line that it
//! writes where something stops it.
#![tactic(auto)]

mod checking;
mod finding;
mod input;
mod naming;
mod parts;
mod reading;
mod source;
mod telling;

pub use finding::{Finding, finding_of, tell_finding};
pub use input::LoadFault;
pub use naming::{check_named, list_named, play_named};
pub use reading::{Texts, Unread, read_texts};
pub use source::{Opener, Source, System};
pub use telling::{tell, tell_load_stop, tell_out_of_memory, tell_run_stop};
