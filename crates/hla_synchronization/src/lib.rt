//! The synchronization points of a federation execution that are open (HLA 1.3, federation management).
#![tactic(auto)]

mod open_points;

pub use open_points::{OpenPoint, OpenPoints};
