//! Worked examples: what given lists of steps end in, as the definitions have it.

ghost use Rattle.hla_components.specs.Examples.Objects.{Ancestor, AsynchronousDelivery, TwoOrdersAndATie, OrdersThatChange, Refusals, LateSubscriber, CreateAndDestroy};
ghost use Rattle.hla_components.specs.Examples.Time.{StaleBound, Boundary, Creep, CreepAvailable, Flush, LargestTime, PickThenGrant, NewestNull};
ghost use Rattle.hla_components.specs.Examples.Roles.{Newcomer, Epoch, Retraction, Floor, RegulatorResigns, CeasingToBeConstrained, BarAboveEntry};
ghost use Rattle.hla_components.specs.Examples.Points.{Synchronization, SynchronizationWithResignation, PointsAndMembership, PointsThatOneLeavingCloses};

/// Declarations, objects and receive order.
pub fn objects()
    ensures ancestor { Ancestor }
    ensures asynchronous_delivery { AsynchronousDelivery }
    ensures two_orders_and_a_tie { TwoOrdersAndATie }
    ensures orders_that_change { OrdersThatChange }
    ensures refusals { Refusals }
    ensures late_subscriber { LateSubscriber }
    ensures create_and_destroy { CreateAndDestroy }
{}

/// Bounds, advances and queues.
pub fn time()
    ensures stale_bound { StaleBound }
    ensures boundary { Boundary }
    ensures creep { Creep }
    ensures creep_available { CreepAvailable }
    ensures flush { Flush }
    ensures largest_time { LargestTime }
    ensures pick_then_grant { PickThenGrant }
    ensures newest_null { NewestNull }
{}

/// Roles that change, the floor, and retraction.
pub fn roles()
    ensures newcomer { Newcomer }
    ensures epoch { Epoch }
    ensures retraction { Retraction }
    ensures floor { Floor }
    ensures regulator_resigns { RegulatorResigns }
    ensures ceasing_to_be_constrained { CeasingToBeConstrained }
    ensures bar_above_entry { BarAboveEntry }
{}

/// Synchronization points.
pub fn points()
    ensures synchronization { Synchronization }
    ensures synchronization_with_resignation { SynchronizationWithResignation }
    ensures points_and_membership { PointsAndMembership }
    ensures points_that_one_leaving_closes { PointsThatOneLeavingCloses }
{}
