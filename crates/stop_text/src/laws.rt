ghost use Rattle.std.specs.Prelude.{◌≡◌, ◌≢◌, ℕ, List, All};
ghost use Rattle.stop_tasks.specs.StopFaults.{AreLawfulStops};
ghost use Rattle.stop_text.specs.StopFile.{StopFile, Spells, sectors_of, stops_of_file};
ghost use Rattle.stop_text.specs.StopRefusals.{HasNoFault, IsRefusedStops};
ghost use Rattle.stop_text.specs.declared.fault.StopTextFault.{StopTextFault};

/// Every text has at most one answer. It spells at most one file; a text that spells a lawful load of lawful tasks has
/// no fault; and a text has at most one fault, the first of its lines, its tasks and its load. Running out of memory
/// says nothing about the text and is no answer in this sense.
///
/// The call does nothing: it exists for its contract.
pub fn stop_text_laws()
    ensures one_file { (text : List ℕ) (a b : StopFile) → Spells text a → Spells text b → a ≡ b }
    ensures lawful { (text : List ℕ) (file : StopFile) (fault : StopTextFault)
        → Spells text file → All HasNoFault (sectors_of file) → AreLawfulStops (stops_of_file file)
        → IsRefusedStops text fault → fault ≡ StopTextFault.NoMemory }
    ensures one_fault { (text : List ℕ) (a b : StopTextFault) → IsRefusedStops text a → IsRefusedStops text b
        → a ≢ StopTextFault.NoMemory → b ≢ StopTextFault.NoMemory → a ≡ b }
{}
