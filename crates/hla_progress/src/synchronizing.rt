//! Synchronization points close once all have ticked and answered, and each member is told so.

ghost use Rattle.hla_progress.specs.Synchronizing.{EachNoticeIsTold, EachPointCloses, EachMemberIsSynchronized};

/// What a federate is to be told of synchronization points is told by its tick number 1 + how much waits ahead of it among what may be
/// given at any tick: no announcement, carry or grant is needed, and whatever else is done while the federate is joined holds nothing up.
pub fn each_notice_is_told()
    ensures { EachNoticeIsTold }
{}

/// An open synchronization point closes in steps in which nobody joins, whatever else is done, where each federate that is joined at their end
/// has ticked as often as something waited for it at their beginning that may be given at any tick, and has achieved the point if it was
/// told of it.
pub fn each_point_closes()
    ensures { EachPointCloses }
{}

/// When a synchronization point closes, each federate that is joined from then on is told that the federation is synchronized, once it has
/// ticked as often as something waits for it then that may be given at any tick.
pub fn each_member_is_synchronized()
    ensures { EachMemberIsSynchronized }
{}
