//! What is skipped in the sections of a document.

ghost use Rattle.std.specs.Prelude.{◌≡◌, ◌++◌, OnOk};
ghost use Rattle.toml.specs.View.{view, table_view};
ghost use Rattle.aircraft_keys.specs.Skipped.{at_each_key, at_envelope, at_key, front_of, in_section, in_list, in_table, other_keys, skipped};
ghost use Rattle.aircraft_keys.specs.Grammar.{section_keys};
ghost use Rattle.aircraft_keys.specs.Texts.{texts, names_in};

use crate::grammar::{Section, is_among, plain_keys, side_keys};
use crate::tables::{front_of, push_in_tables, push_name, push_other, push_others};
use base_words::NoMemory;
use std::alloc::Global;
use toml::{Table, Value};

/// Appends what is skipped in a value that is to be a table of these keys.
#[tactic(auto, using(crate::proofs::SkipLemmas::nothing_more))]
fn push_in_table(
    alloc: Global,
    out: &mut Vec<Vec<u8>>,
    keys: &[&[u8]],
    front: &[u8],
    key: &[u8],
    value: &Value,
) -> Result<(), NoMemory>
    ensures { OnOk result (names_in out.new ≡ names_in out.old
        ++ in_table (other_keys (texts keys.now) (front_of (front.now ++ key.now))) (view value.now)) }
{
    let Some(table) = value.as_table() else {
        return Ok(());
    };
    let front = front_of(alloc, front, key)?;
    push_others(alloc, out, keys, &front, table)
}

/// Appends what is skipped at a key of `envelope`.
fn push_at_envelope(
    alloc: Global,
    out: &mut Vec<Vec<u8>>,
    front: &[u8],
    key: &[u8],
    value: &Value,
) -> Result<(), NoMemory>
    ensures { OnOk result
        (names_in out.new ≡ names_in out.old ++ at_envelope front.now key.now (view value.now)) }
{
    if !is_among(key, Section::Envelope.keys()) {
        return push_name(alloc, out, front, key);
    }
    push_in_table(alloc, out, side_keys(), front, key, value)
}

/// Appends what is skipped in `envelope`.
fn push_envelopes(
    alloc: Global,
    out: &mut Vec<Vec<u8>>,
    front: &[u8],
    table: &Table,
) -> Result<(), NoMemory>
    ensures { OnOk result (names_in out.new
        ≡ names_in out.old ++ at_each_key (at_envelope front.now) (table_view table.now)) }
{
    for (key, value) in table.iter() {
        push_at_envelope(alloc, out, front, key.as_bytes(), value)?;
    }
    Ok(())
}

/// The same of a value that is to be a table, with this name.
#[tactic(auto, using(crate::proofs::SkipLemmas::nothing_more))]
fn push_in_envelope(
    alloc: Global,
    out: &mut Vec<Vec<u8>>,
    name: &[u8],
    value: &Value,
) -> Result<(), NoMemory>
    ensures { OnOk result (names_in out.new ≡ names_in out.old
        ++ in_table (at_each_key (at_envelope (front_of name.now))) (view value.now)) }
{
    let Some(table) = value.as_table() else {
        return Ok(());
    };
    let front = front_of(alloc, b"", name)?;
    push_envelopes(alloc, out, &front, table)
}

/// Appends what is skipped in a value that is to be a list of tables of these keys.
#[tactic(auto, using(crate::proofs::SkipLemmas::nothing_more))]
fn push_in_list(
    alloc: Global,
    out: &mut Vec<Vec<u8>>,
    keys: &[&[u8]],
    name: &[u8],
    value: &Value,
) -> Result<(), NoMemory>
    ensures { OnOk result
        (names_in out.new ≡ names_in out.old ++ in_list (texts keys.now) name.now (view value.now)) }
{
    let Some(list) = value.as_array() else {
        return Ok(());
    };
    push_in_tables(alloc, out, keys, name, list.as_slice())
}

/// Appends what is skipped in a section, whose key is its name.
fn push_section(
    alloc: Global,
    out: &mut Vec<Vec<u8>>,
    section: Section,
    name: &[u8],
    value: &Value,
) -> Result<(), NoMemory>
    ensures { OnOk result
        (names_in out.new ≡ names_in out.old ++ in_section section name.now (view value.now)) }
{
    match section {
        Section::Zone | Section::Position => push_in_list(alloc, out, section.keys(), name, value),
        Section::Envelope => push_in_envelope(alloc, out, name, value),
        _ => push_in_table(alloc, out, section.keys(), b"", name, value),
    }
}

/// Appends what is skipped at a key of the document.
fn push_at_key(
    alloc: Global,
    out: &mut Vec<Vec<u8>>,
    key: &[u8],
    value: &Value,
) -> Result<(), NoMemory>
    ensures { OnOk result (names_in out.new ≡ names_in out.old ++ at_key key.now (view value.now)) }
{
    match Section::at(key) {
        Some(section) => push_section(alloc, out, section, key, value),
        None => push_other(alloc, out, plain_keys(), b"", key),
    }
}

/// Appends what is skipped in the document.
pub fn push_skipped(alloc: Global, out: &mut Vec<Vec<u8>>, document: &Table) -> Result<(), NoMemory>
    ensures { OnOk result
        (names_in out.new ≡ names_in out.old ++ skipped (table_view document.now)) }
{
    for (key, value) in document.iter() {
        push_at_key(alloc, out, key.as_bytes(), value)?;
    }
    Ok(())
}
