//! What stands for a number.

ghost use Rattle.std.specs.Prelude.{◌≡◌};
ghost use Rattle.hla_plain.specs.Words.{order_from, resign_action_from};

use hla_catalogue::Order;
use hla_machine::ResignAction;

/// The order that a number stands for: 1 receive order, 2 time-stamp order.
pub fn order_from(number: u32) -> Option<Order>
    ensures { result ≡ order_from number }
{
    match number {
        1 => Some(Order::Receive),
        2 => Some(Order::Timestamp),
        _ => None,
    }
}

/// The action at resigning that a number stands for: 1 releases attributes, 2 deletes objects, 3 does both, 4 does neither.
pub fn resign_action_from(number: u32) -> Option<ResignAction>
    ensures { result ≡ resign_action_from number }
{
    match number {
        1 => Some(ResignAction::ReleaseAttributes),
        2 => Some(ResignAction::DeleteObjects),
        3 => Some(ResignAction::DeleteObjectsAndReleaseAttributes),
        4 => Some(ResignAction::NoAction),
        _ => None,
    }
}
