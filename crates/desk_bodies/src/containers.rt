//! A list of containers, as a table of text.

ghost use Rattle.std.specs.Prelude.{◌≡◌, ◌≤◌, ◌∷◌, [], ◌↔◌, ℕ, List, length, map, All, IfOk, IfSome, IfNone, IsTrue};
ghost use Rattle.csv.specs.Records.{fields_of};
ghost use Rattle.hold_parts.specs.declared.parts.Item.{Item};
ghost use Rattle.flight_row.specs.Spelled.{IsSpelledContainer};
ghost use Rattle.desk_bodies.specs.Containers.{ListsContainers, Records, record_of, titles};

use crate::fault::BodyFault;
use base_words::NoMemory;
use csv::{ByteRecord, ReaderBuilder};
use hold_limits::{Item, UldId};
use mass_units::{Kg, read_number};
use std::alloc::Global;
use std::str;
use trim::Items;

/// The most containers of a body.
const MOST_CONTAINERS: usize = 64;

/// The greatest mass of a container.
const MOST_MASS: u32 = 1_000_000;

/// The containers of a table with the columns `id` and `mass`.
pub fn read_containers(alloc: Global, body: &[u8]) -> Result<Items, BodyFault>
    ensures read { IfOk result (ListsContainers body.now) }
    ensures refused { result ≡ Err BodyFault.Form → (items : List Item) → ListsContainers body.now items → ⊥ }
{
    if str::from_utf8(body).is_err() {
        return Err(BodyFault::Form);
    }
    let records = read_records(alloc, body)?;
    let Some(containers) = containers_listed(alloc, records.as_slice())? else {
        return Err(BodyFault::Form);
    };
    Ok(Items::from(containers))
}

/// The records of the text. A reader of a slice has no reason to fail but memory.
fn read_records(alloc: Global, body: &[u8]) -> Result<Vec<ByteRecord>, NoMemory>
    ensures { IfOk result (λ records. Records body.now (map fields_of records.items)) }
{
    let reader = ReaderBuilder::new()
        .has_headers(false)
        .flexible(true)
        .from_reader(alloc, body);
    let mut records = Vec::new(alloc);
    for record in reader.into_byte_records() {
        match record {
            Ok(record) => records.push(record)?,
            Err(_) => return Err(NoMemory),
        }
    }
    Ok(records)
}

/// The containers that the records list below their titles. None where they list none.
fn containers_listed(alloc: Global, records: &[ByteRecord]) -> Result<Option<Vec<Item>>, NoMemory>
    ensures some { IfOk result (λ read. IfSome read (λ list.
        (map fields_of records.now ≡ titles ∷ map record_of list.items)
        × (length list.items ≤ 64) × All IsSpelledContainer list.items)) }
    ensures none { IfOk result (λ read. IfNone read ((items : List Item) → All IsSpelledContainer items
        → length items ≤ 64 → map fields_of records.now ≡ titles ∷ map record_of items → ⊥)) }
{
    let [first, rows @ ..] = records else {
        return Ok(None);
    };
    if !are_titles(first) || rows.len() > MOST_CONTAINERS {
        return Ok(None);
    }
    containers_in(alloc, rows)
}

/// Whether the record has the titles of the columns.
fn are_titles(record: &ByteRecord) -> bool
    ensures { IsTrue result ↔ (fields_of record.now ≡ titles) }
{
    match pair_in(record) {
        Some((first, second)) => first == b"id".as_slice() && second == b"mass".as_slice(),
        None => false,
    }
}

/// The two fields of a record that has no more.
fn pair_in(record: &ByteRecord) -> Option<(&[u8], &[u8])>
    ensures some { IfSome result (λ pair. fields_of record.now ≡ pair.0.now ∷ pair.1.now ∷ []) }
    ensures none { IfNone result ((a b : List ℕ) → fields_of record.now ≡ a ∷ b ∷ [] → ⊥) }
{
    let first = record.get(0)?;
    let second = record.get(1)?;
    match record.get(2) {
        Some(_) => None,
        None => Some((first, second)),
    }
}

/// The containers of the records, one each. None where a record is that of no container.
fn containers_in(alloc: Global, rows: &[ByteRecord]) -> Result<Option<Vec<Item>>, NoMemory>
    ensures some { IfOk result (λ read. IfSome read (λ list.
        (map fields_of rows.now ≡ map record_of list.items) × All IsSpelledContainer list.items)) }
    ensures none { IfOk result (λ read. IfNone read ((items : List Item) → All IsSpelledContainer items
        → map fields_of rows.now ≡ map record_of items → ⊥)) }
{
    let mut containers = Vec::new(alloc);
    for row in rows {
        let Some(container) = container_in(row) else {
            return Ok(None);
        };
        containers.push(container)?;
    }
    Ok(Some(containers))
}

/// The container of a record.
fn container_in(row: &ByteRecord) -> Option<Item>
    ensures some { IfSome result (λ item. (fields_of row.now ≡ record_of item) × IsSpelledContainer item) }
    ensures none { IfNone result ((item : Item) → IsSpelledContainer item
        → fields_of row.now ≡ record_of item → ⊥) }
{
    let (id, mass) = pair_in(row)?;
    let id = UldId::read(id)?;
    let mass = read_number(mass)?;
    if mass > MOST_MASS {
        return None;
    }
    Some(Item { id, mass: Kg(mass) })
}
