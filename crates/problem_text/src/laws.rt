ghost use Rattle.std.specs.Prelude.{◌≡◌, ◌≢◌, ℕ, List, None};
ghost use Rattle.hold_limits.specs.Problem.{Problem};
ghost use Rattle.hold_limits.specs.Faults.{hold_fault, task_fault};
ghost use Rattle.problem_text.specs.TaskText.{Spells};
ghost use Rattle.problem_text.specs.Refusals.{IsRefused};
ghost use Rattle.problem_text.specs.declared.fault.TextFault.{TextFault};

/// Every text has exactly one answer. It spells at most one task; a text that spells a lawful task has no fault;
/// a text has at most one fault, the first of its lines, its hold and its task; and no text is without both a lawful
/// task and a fault. Running out of memory says nothing about the text and is no answer in this sense.
///
/// The call does nothing: it exists for its contract.
pub fn reading_laws()
    ensures one_task { (text : List ℕ) (a b : Problem) → Spells text a → Spells text b → a ≡ b }
    ensures lawful { (text : List ℕ) (t : Problem) (fault : TextFault)
        → Spells text t → hold_fault t.hold ≡ None → task_fault t ≡ None
        → IsRefused text fault → fault ≡ TextFault.NoMemory }
    ensures one_fault { (text : List ℕ) (a b : TextFault) → IsRefused text a → IsRefused text b
        → a ≢ TextFault.NoMemory → b ≢ TextFault.NoMemory → a ≡ b }
    ensures some_answer { (text : List ℕ)
        → ((t : Problem) → Spells text t → hold_fault t.hold ≡ None → task_fault t ≡ None → ⊥)
        → ((fault : TextFault) → IsRefused text fault → fault ≡ TextFault.NoMemory) → ⊥ }
{}
