//! What the components keep so that rounds can tell what each will know.

ghost use Rattle.hla_progress.specs.Promises.{EachWireEndsAtTheLast, EachFloorIsRaised, EachStepKeepsPromises, EachListKeepsPromises};

/// Whatever the steps, what a joined federate knows of another, carried along the null messages of the present epoch on the wire
/// between them, ends exactly at what that one announced last, which is FOREVER where it does not regulate or is not joined.
pub fn each_wire_ends_at_the_last()
    ensures { EachWireEndsAtTheLast }
{}

/// Whatever the steps, a federate in Time Advance Request or Time Advance Request Available, or in any advance while it is not
/// constrained, has its floor at or above the time that it asked for and the width of its request.
pub fn each_floor_is_raised()
    ensures { EachFloorIsRaised }
{}

/// Each step keeps both.
pub fn each_step_keeps_promises()
    ensures { EachStepKeepsPromises }
{}

/// After each list of steps both hold, of each wire and of each row.
pub fn each_list_keeps_promises()
    ensures { EachListKeepsPromises }
{}
