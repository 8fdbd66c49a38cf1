//! The laws.

ghost use Rattle.std.specs.Prelude.{◌≡◌, ℕ, Bool, List, [], ◌∷◌, ◌++◌, Option, IfSome, All};
ghost use Rattle.aircraft_file.specs.Craft.{Craft};
ghost use Rattle.aircraft_file.specs.Lawful.{IsLawfulCraft};
ghost use Rattle.flight_history.specs.History.{Judged, AreJudgedAfter, IsJudgement, acts_of, flight_at};
ghost use Rattle.flight_history.specs.Replies.{IsReply, IsReplyBy};
ghost use Rattle.flight_history.specs.Verdict.{IsVerdict};
ghost use Rattle.flight_history.specs.declared.entry.Act.{Act};
ghost use Rattle.flight_history.specs.declared.entry.Entry.{Entry};
ghost use Rattle.flight_history.specs.declared.entry.Outcome.{Outcome};
ghost use Rattle.flight_history.specs.declared.reply.Refusal.{Refusal};
ghost use Rattle.flight_history.specs.declared.reply.Reply.{Reply};
ghost use Rattle.flight_state.specs.Effective.{effective};
ghost use Rattle.flight_state.specs.declared.state.FlightState.{FlightState};
ghost use Rattle.last_minute.specs.Sheets.{IsSheet};
ghost use Rattle.last_minute.specs.declared.sheet.Sheet.{Sheet};
ghost use Rattle.reply_laws.specs.Alike.{verdicts_on, AgreeOn, HasMass, AreWithin};

/// An act has one verdict: yes, or one refusal with the value that it carries; and so a history has one judgement.
///
/// The call does nothing: it is there for its contract.
pub fn verdict_laws()
    ensures one { (fleet : List Craft) (full : Bool) (s : Option FlightState) (act : Act) (verdict other : Option Refusal)
        → IsVerdict fleet full s act verdict → IsVerdict fleet full s act other → verdict ≡ other }
    ensures judgement { (fleet : List Craft) (opening : List FlightState) (entries : List Entry) (history other : List Judged)
        → IsJudgement fleet opening entries history → IsJudgement fleet opening entries other → history ≡ other }
{}

/// A flight with a mass has one sheet. Without one it has no centre of gravity, and any would do.
///
/// The call does nothing: it is there for its contract.
pub fn sheet_law()
    ensures { (a : Craft) (s : FlightState) (sheet other : Sheet) → IsLawfulCraft a → HasMass (effective s)
        → IsSheet a s sheet → IsSheet a s other → sheet ≡ other }
{}

/// Two histories that agree on a flight give equal verdicts on its entries, and equal replies to the last of them: what is
/// said of a flight is a function of the fleet, of the flight as it was opened with and of its own entries, and, for each
/// entry that asks for it as a new one, of whether the office was full.
///
/// The masses are there because a sheet has a centre of gravity: a lawful aircraft has one, a flight that is opened takes
/// it from there, and a request tells no other.
///
/// The call does nothing: it is there for its contract.
pub fn reply_laws()
    ensures one { (fleet : List Craft) (s : Option FlightState) (act : Act) (outcome : Outcome) (verdict : Option Refusal) (reply other : Reply)
        → All IsLawfulCraft fleet → IfSome s (λ (t : FlightState). HasMass (effective t))
        → IsReplyBy fleet s act outcome verdict reply → IsReplyBy fleet s act outcome verdict other → reply ≡ other }
    ensures verdicts { (fleet : List Craft) (key : List ℕ) (opening opening' : List FlightState) (history history' : List Judged)
        → AreJudgedAfter fleet opening [] history → AreJudgedAfter fleet opening' [] history'
        → AgreeOn key opening opening' history history'
        → verdicts_on key opening history ≡ verdicts_on key opening' history' }
    ensures replies { (fleet : List Craft) (opening opening' : List FlightState) (history history' : List Judged) (j j' : Judged) (reply reply' : Reply)
        → All IsLawfulCraft fleet
        → AreJudgedAfter fleet opening [] (history ++ j ∷ []) → AreJudgedAfter fleet opening' [] (history' ++ j' ∷ [])
        → j'.entry.key ≡ j.entry.key
        → AgreeOn j.entry.key opening opening' (history ++ j ∷ []) (history' ++ j' ∷ [])
        → AreWithin (flight_at opening j.entry.key) (acts_of j.entry.key history)
        → IsReply fleet opening history j reply → IsReply fleet opening' history' j' reply' → reply ≡ reply' }
{}
