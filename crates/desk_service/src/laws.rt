//! The laws of service.

ghost use Rattle.desk_service.specs.Laws.{FailsWithTheKeeper, InstallsTheBest, MakesFewerWithoutRoom, MakesTwoAtMost, NeverOtherTask, StaysService};

/// Does nothing. Its contract says that the definitions of service mean what they are meant to: a service stays one in every
/// history that continues its own; an exchange makes two entries at most, and some one makes fewer where an answer is 507;
/// each answer 503 comes with an entry that was not kept because the keeper failed; an installed plan is the best one for the
/// figures of the edition that its request named, whatever came between; and no plan is refused as one for another task.
pub fn service_laws()
    ensures stays { StaysService }
    ensures two_at_most { MakesTwoAtMost }
    ensures fewer { MakesFewerWithoutRoom }
    ensures failures { FailsWithTheKeeper }
    ensures best { InstallsTheBest }
    ensures same_task { NeverOtherTask }
{}
