//! What the federates of one execution publish and subscribe (HLA 1.3, declaration management), and who receives what.
#![tactic(auto)]

mod attribute_lists;
mod class_set;
mod declarations;
mod member;
mod queries;
mod receiver;
mod receiving;
mod subscribers;
mod subscribing;

pub use declarations::Declarations;
pub use receiver::Receiver;
pub use subscribing::Subscribers;
