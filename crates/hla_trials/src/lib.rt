//! What the examples are tried by: facts of records, forgeries that the checker must tell, ambassadors that listen and give
//! trouble, and examples by their lines. It knows nothing of what plays a script, for which the program that tries them waits.
#![tactic(auto)]

mod facts;
mod forging;
mod listening;
mod ordering;
mod texts;

pub use facts::{callback_of, ticking};
pub use forging::{tells_forgeries, tells_full};
pub use listening::{Diary, Heard, Listener, Trouble, are_of, listeners};
pub use ordering::tells_order;
pub use texts::{Listed, add_line, add_lines, rest};
