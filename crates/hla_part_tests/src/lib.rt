//! Tests of a component and its parts, of the directory, and of what is read, listed and printed, by public functions alone; and the
//! FED file that these read. They stand apart so that no crate below is proved a second time for its tests.
#![tactic(auto)]

#[cfg(test)]
mod declarations;
#[cfg(test)]
mod facts;
#[cfg(test)]
mod fed_files;
#[cfg(test)]
mod federates;
#[cfg(test)]
mod listing;
#[cfg(test)]
mod locals;
#[cfg(test)]
mod lookahead;
#[cfg(test)]
mod objects;
#[cfg(test)]
mod peers;
#[cfg(test)]
mod printing;
#[cfg(test)]
mod queues;
#[cfg(test)]
mod reading;
#[cfg(test)]
mod retraction;
#[cfg(test)]
mod shared_lists;
#[cfg(test)]
mod synchronization;
#[cfg(test)]
mod time_roles;
#[cfg(test)]
mod wires;

/// A FED file with each kind of declaration.
pub const FED: &str = "(FED
 (Federation Demo)
 (FEDversion v1.3)
 (spaces)
 (objects
  (class ObjectRoot
   (attribute privilegeToDelete reliable timestamp)
   (class Car
    (attribute Pos reliable timestamp)
    (attribute Paint reliable receive))))
 (interactions
  (class InteractionRoot reliable receive
   (class Note reliable receive
    (parameter Text)
    (class Memo reliable receive
     (parameter Extra)))
   (class Hit reliable timestamp
    (parameter Force)))))
";
