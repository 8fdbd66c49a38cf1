//! The keys of one table that are none of some.

ghost use Rattle.std.specs.Prelude.{◌≡◌, ◌++◌, ◌∷◌, [], OnOk, IfOk};
ghost use Rattle.toml.specs.View.{view, table_view, items_view};
ghost use Rattle.mass_units.specs.Spelling.{number_text};
ghost use Rattle.aircraft_keys.specs.Skipped.{other_key, other_keys, in_table, in_tables, front_of};
ghost use Rattle.aircraft_keys.specs.Texts.{texts, names_in};

use crate::grammar::is_among;
use base_words::NoMemory;
use std::alloc::Global;
use telex::Builder;
use toml::{Table, Value};

/// Appends a key's full name.
#[tactic(auto, using(crate::proofs::SkipLemmas::name_added))]
pub fn push_name(
    alloc: Global,
    out: &mut Vec<Vec<u8>>,
    front: &[u8],
    key: &[u8],
) -> Result<(), NoMemory>
    ensures { OnOk result (names_in out.new ≡ names_in out.old ++ (front.now ++ key.now) ∷ []) }
{
    let mut name = Builder::new(alloc);
    name.text(front)?;
    name.text(key)?;
    out.push(name.finish())?;
    Ok(())
}

/// The front of the full names in the table at this key.
pub fn front_of(alloc: Global, front: &[u8], key: &[u8]) -> Result<Vec<u8>, NoMemory>
    ensures { IfOk result (λ text. text.items ≡ front_of (front.now ++ key.now)) }
{
    let mut text = Builder::new(alloc);
    text.text(front)?;
    text.text(key)?;
    text.text(b".")?;
    Ok(text.finish())
}

/// The front of the full names in the table with this number in the list with this name.
fn numbered_front(alloc: Global, name: &[u8], number: usize) -> Result<Vec<u8>, NoMemory>
    ensures { IfOk result (λ text. text.items ≡ front_of (front_of name.now ++ number_text number)) }
{
    let mut text = Builder::new(alloc);
    text.text(name)?;
    text.text(b".")?;
    text.count(number as u64)?;
    text.text(b".")?;
    Ok(text.finish())
}

/// Appends the full name of the key if it is none of these.
#[tactic(auto, using(crate::proofs::SkipLemmas::nothing_more))]
pub fn push_other(
    alloc: Global,
    out: &mut Vec<Vec<u8>>,
    keys: &[&[u8]],
    front: &[u8],
    key: &[u8],
) -> Result<(), NoMemory>
    ensures { OnOk result
        (names_in out.new ≡ names_in out.old ++ other_key (texts keys.now) front.now key.now) }
{
    if is_among(key, keys) {
        return Ok(());
    }
    push_name(alloc, out, front, key)
}

/// Appends the full names of the table's keys that are none of these.
pub fn push_others(
    alloc: Global,
    out: &mut Vec<Vec<u8>>,
    keys: &[&[u8]],
    front: &[u8],
    table: &Table,
) -> Result<(), NoMemory>
    ensures { OnOk result (names_in out.new
        ≡ names_in out.old ++ other_keys (texts keys.now) front.now (table_view table.now)) }
{
    for (key, _) in table.iter() {
        push_other(alloc, out, keys, front, key.as_bytes())?;
    }
    Ok(())
}

/// The same of a value that may be a table, with this number in the list with this name.
#[tactic(auto, using(crate::proofs::SkipLemmas::nothing_more))]
fn push_numbered(
    alloc: Global,
    out: &mut Vec<Vec<u8>>,
    keys: &[&[u8]],
    name: &[u8],
    number: usize,
    value: &Value,
) -> Result<(), NoMemory>
    ensures { OnOk result (names_in out.new ≡ names_in out.old
        ++ in_table (other_keys (texts keys.now) (front_of (front_of name.now ++ number_text number))) (view value.now)) }
{
    let Some(table) = value.as_table() else {
        return Ok(());
    };
    let front = numbered_front(alloc, name, number)?;
    push_others(alloc, out, keys, &front, table)
}

/// The same of each table of a list with this name.
pub fn push_in_tables(
    alloc: Global,
    out: &mut Vec<Vec<u8>>,
    keys: &[&[u8]],
    name: &[u8],
    list: &[Value],
) -> Result<(), NoMemory>
    ensures { OnOk result (names_in out.new
        ≡ names_in out.old ++ in_tables (texts keys.now) name.now 1 (items_view list.now)) }
{
    for (place, value) in list.iter().enumerate() {
        push_numbered(alloc, out, keys, name, place + 1, value)?;
    }
    Ok(())
}
