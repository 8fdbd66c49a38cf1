ghost use Rattle.std.specs.Prelude.{◌≡◌, ◌≢◌, Some, None, Result, IfErr, IfOk};
ghost use Rattle.toml.specs.View.{table_view};
ghost use Rattle.aircraft_file.specs.Craft.{Craft};
ghost use Rattle.aircraft_file.specs.declared.fault.FileFault.{FileFault};
ghost use Rattle.aircraft_file.specs.Document.{document_of};
ghost use Rattle.aircraft_file.specs.Lawful.{IsAnswerTo, IsLawfulCraft};

use crate::aircraft::{Aircraft, aircraft_of};
use crate::fault::FileFault;
use crate::loading_keys::read_parts;
use crate::section::Section;
use std::alloc::Global;
use toml::Table;

/// Reads the aircraft that the text describes. The text is a TOML document with the keys of an aircraft
/// file; other keys are skipped.
///
/// A text that describes none is refused with the one fault that decides: it is not a document; or else the
/// first key that is missing or wrong, in the order of their numbers; or else the first fault of the hold,
/// the three envelopes, the fuel table or the spans, in this order.
#[tactic(auto, using(crate::proofs::AnswerLemmas::one_answer))]
pub fn read_aircraft(alloc: Global, text: &[u8]) -> Result<Aircraft, FileFault>
    ensures answer { result ≢ Err FileFault.NoMemory → IsAnswerTo text.now result }
    ensures one_answer { (a b : Result Craft FileFault)
        → IsAnswerTo text.now a → IsAnswerTo text.now b → a ≡ b }
    ensures lawful { IfOk result IsLawfulCraft }
{
    let table = read_document(alloc, text)?;
    let parts = read_parts(alloc, &Section::of(&table))?;
    aircraft_of(parts)
}

/// The document in the text.
fn read_document(alloc: Global, text: &[u8]) -> Result<Table, FileFault>
    ensures read { IfOk result (λ table. document_of text.now ≡ Some (table_view table)) }
    ensures refused { IfErr result (λ fault. fault ≢ FileFault.NoMemory
        → (fault ≡ FileFault.Toml) × (document_of text.now ≡ None)) }
{
    match toml::table_from_slice(alloc, text) {
        Ok(table) => Ok(table),
        Err(fault) if fault.is_memory() => Err(FileFault::NoMemory),
        Err(_) => Err(FileFault::Toml),
    }
}
