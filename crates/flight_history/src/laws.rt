//! Laws of the definitions themselves.

ghost use Rattle.std.specs.Prelude.{◌≡◌, ◌↔◌, ℕ, Bool, List, [], ◌∷◌, ◌++◌, Option, None, Some};
ghost use Rattle.aircraft_file.specs.Craft.{Craft};
ghost use Rattle.flight_state.specs.Effective.{effective};
ghost use Rattle.flight_state.specs.declared.state.FlightState.{FlightState};
ghost use Rattle.flight_history.specs.declared.entry.Act.{Act};
ghost use Rattle.flight_history.specs.declared.entry.Act.TheVariants as act;
ghost use Rattle.flight_history.specs.declared.reply.Reply.{Reply};
ghost use Rattle.flight_history.specs.Alone.{own, marked, marks, AreJudgedAlone, IsReplyAlone};
ghost use Rattle.flight_history.specs.declared.entry.Entry.{Entry};
ghost use Rattle.flight_history.specs.History.{Judged, AreJudgedAfter, IsJudgement, acts_of, flight_at, flight_count, standing_of};
ghost use Rattle.flight_history.specs.Released.{MayBeReleased};
ghost use Rattle.flight_history.specs.Replies.{IsReply};
ghost use Rattle.flight_history.specs.Standing.{figures_after, standing, standing_from};
ghost use Rattle.flight_history.specs.Step.{after, step};
ghost use Rattle.flight_history.specs.Verdict.{IsVerdict};

/// One more accepted act takes the standing of a flight one step on; and the effective figures of a standing are what
/// the last act on each part tells, with the late changes after it.
///
/// The call does nothing: it is there for its contract.
pub fn standing_laws()
    ensures step { (o : FlightState) (acts : List Act) (act : Act)
        → standing_from o (acts ++ act ∷ []) ≡ step (standing_from o acts) act }
    ensures after { (fleet : List Craft) (opened : Option FlightState) (acts : List Act) (act : Act)
        → (standing fleet opened acts ≡ None → acts ≡ [])
        → standing fleet opened (acts ++ act ∷ []) ≡ after fleet (standing fleet opened acts) act }
    ensures figures { (o : FlightState) (acts : List Act)
        → effective (standing_from o acts) ≡ figures_after o acts }
{}

/// A release is accepted exactly where the flight has not departed, the edition is the newest, and a plan stands with which
/// no rule is broken.
///
/// The call does nothing: it is there for its contract.
pub fn release_law()
    ensures { (fleet : List Craft) (full : Bool) (s : FlightState) (edition : ℕ)
        → IsVerdict fleet full (Some s) (act.Release edition) None ↔ MayBeReleased fleet s edition }
{}

/// A history has one judgement: by each, the same acts of every flight are accepted, and there are as many flights.
///
/// The call does nothing: it is there for its contract.
pub fn judgement_laws()
    ensures one { (fleet : List Craft) (opening : List FlightState) (entries : List Entry) (history other : List Judged) (key : List ℕ)
        → IsJudgement fleet opening entries history → IsJudgement fleet opening entries other
        → acts_of key history ≡ acts_of key other }
    ensures count { (fleet : List Craft) (opening : List FlightState) (entries : List Entry) (history other : List Judged)
        → IsJudgement fleet opening entries history → IsJudgement fleet opening entries other
        → flight_count opening history ≡ flight_count opening other }
{}

/// In a judged history no act of a flight is accepted before the flight is there. The verdicts and the replies on a flight
/// are those of its own entries alone, without the entries of other flights: of them it matters only whether the office
/// was full where the flight was to be opened.
///
/// The call does nothing: it is there for its contract.
pub fn history_laws()
    ensures first { (fleet : List Craft) (opening : List FlightState) (key : List ℕ) (history : List Judged)
        → AreJudgedAfter fleet opening [] history
        → standing_of fleet opening history key ≡ None → acts_of key history ≡ [] }
    ensures alone { (fleet : List Craft) (opening : List FlightState) (key : List ℕ) (history : List Judged)
        → AreJudgedAfter fleet opening [] history
        → AreJudgedAlone fleet (flight_at opening key) [] (own key (marks opening [] history)) }
    ensures replies { (fleet : List Craft) (opening : List FlightState) (history : List Judged) (j : Judged) (reply : Reply)
        → IsReply fleet opening history j reply
        → IsReplyAlone fleet (flight_at opening j.entry.key) (own j.entry.key (marks opening [] history))
        (marked opening history j) reply }
{}
