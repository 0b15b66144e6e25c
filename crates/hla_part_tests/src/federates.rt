//! Sets of federates.

ghost use Rattle.std.specs.Prelude.{◌<◌, ◌≤◌};

use hla_base::{FederateNo, FederateSet};

/// The set of two federates.
pub fn pair(first: FederateNo, second: FederateNo) -> FederateSet
    requires first_some { 0 < first }
    requires first_within { first ≤ 16 }
    requires second_some { 0 < second }
    requires second_within { second ≤ 16 }
{
    let mut federates = FederateSet::new();
    federates.add(first);
    federates.add(second);
    federates
}
