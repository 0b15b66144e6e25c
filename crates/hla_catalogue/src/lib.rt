//! The catalogue of a federation: its object classes, interaction classes, attributes and parameters, and how they are looked
//! up. `hla_fed_file` reads one from a FED file of HLA 1.3.
#![tactic(auto)]

mod catalogue;
mod declared;
mod draft;
mod groups;
mod lookup;
mod names;

pub use catalogue::Catalogue;
pub use declared::{Attribute, InteractionClass, ObjectClass, Order, Parameter, Transport};
pub use draft::Draft;
