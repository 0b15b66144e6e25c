//! Plain data, as callers in other languages hand it in and take it out: numbers, bytes, and arrays of them, in structs of
//! C's layout. Values of attributes and parameters are heads, each a number and a length, and the bytes of all, one behind
//! another; a callback is a struct of numbers, with its values and its text beside it.
#![tactic(auto)]

mod data;
mod faults;
mod telling;
mod values;
mod words;

pub use crate::data::{CallbackData, CarriedData, EventData, FedFaultData, ValueHead};
pub use crate::faults::{fault_from, fault_of_fed, fed_fault_data, fed_fault_kind_from};
pub use crate::telling::{callback_data, callback_name, callback_values, carried_data, event_data};
pub use crate::values::{count_bytes, values_from, write_text, write_values};
pub use crate::words::{order_from, resign_action_from};
