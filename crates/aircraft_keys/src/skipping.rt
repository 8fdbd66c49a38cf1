//! The keys that nobody reads.

ghost use Rattle.std.specs.Prelude.{◌≡◌, ◌≢◌, Some, None, IfOk, IfErr, option_map, is_some, option_and_then};
ghost use Rattle.toml.specs.Data.{as_table, get_member};
ghost use Rattle.toml.specs.View.{view, table_view};
ghost use Rattle.aircraft_file.specs.Document.{document_of};
ghost use Rattle.aircraft_keys.specs.Skipped.{skipped, sides_without_limit, is_without_limit};
ghost use Rattle.aircraft_keys.specs.Texts.{names_in};

use crate::fault::KeysFault;
use crate::sections::push_skipped;
use std::alloc::Global;
use toml::{Table, Value};

/// The full names of the keys that a reader of aircraft files skips, in the order of the document as it is read: the keys of
/// a table by their letters, and a list in its own order. What is below a skipped key is not told. A key that is to hold a
/// table and does not is none of them, since the reader refuses it.
pub fn skipped_keys(alloc: Global, text: &[u8]) -> Result<Vec<Vec<u8>>, KeysFault>
    ensures names { IfOk result (λ names. option_map skipped (document_of text.now) ≡ Some (names_in names)) }
    ensures refused { IfErr result (λ fault. fault ≢ KeysFault.NoMemory
        → (fault ≡ KeysFault.Toml) × (document_of text.now ≡ None)) }
{
    let document = read_document(alloc, text)?;
    let mut names = Vec::new(alloc);
    push_skipped(alloc, &mut names, &document)?;
    Ok(names)
}

/// Whether positions of the hold have sides and the hold has no lateral limit, so that the sides do nothing.
pub fn sides_without_limit(alloc: Global, text: &[u8]) -> Result<bool, KeysFault>
    ensures value { IfOk result (λ b. option_map sides_without_limit (document_of text.now) ≡ Some b) }
    ensures refused { IfErr result (λ fault. fault ≢ KeysFault.NoMemory
        → (fault ≡ KeysFault.Toml) × (document_of text.now ≡ None)) }
{
    let document = read_document(alloc, text)?;
    Ok(has_sides_without_limit(&document))
}

/// The document in the text.
fn read_document(alloc: Global, text: &[u8]) -> Result<Table, KeysFault>
    ensures read { IfOk result (λ table. document_of text.now ≡ Some (table_view table)) }
    ensures refused { IfErr result (λ fault. fault ≢ KeysFault.NoMemory
        → (fault ≡ KeysFault.Toml) × (document_of text.now ≡ None)) }
{
    match toml::table_from_slice(alloc, text) {
        Ok(table) => Ok(table),
        Err(fault) if fault.is_memory() => Err(KeysFault::NoMemory),
        Err(_) => Err(KeysFault::Toml),
    }
}

fn has_sides_without_limit(document: &Table) -> bool
    ensures { result ≡ sides_without_limit (table_view document.now) }
{
    table_at(document, "hold").is_some_and(|hold| is_without_limit(hold))
}

fn is_without_limit(hold: &Table) -> bool
    ensures { result ≡ is_without_limit (table_view hold.now) }
{
    (has_key(hold, "left") || has_key(hold, "right")) && !has_key(hold, "lateral")
}

/// The table at the key.
fn table_at<'a>(table: &'a Table, key: &str) -> Option<&'a Table>
    ensures { option_map (λ t. table_view t.now) result
        ≡ option_and_then as_table (get_member key.now (table_view table.now)) }
{
    value_at(table, key)?.as_table()
}

fn has_key(table: &Table, key: &str) -> bool
    ensures { result ≡ is_some (get_member key.now (table_view table.now)) }
{
    value_at(table, key).is_some()
}

#[tactic(auto, using(toml::proofs::Views::table_get))]
fn value_at<'a>(table: &'a Table, key: &str) -> Option<&'a Value>
    ensures { option_map (λ v. view v.now) result ≡ get_member key.now (table_view table.now) }
{
    table.get(key)
}
