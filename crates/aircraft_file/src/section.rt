//! The keys of a section of the document.

ghost use Rattle.std.specs.Prelude.{◌≡◌, ◌≤◌, unsigned_abs, option_map, true, All, None, Some, IfErr, IfOk};
ghost use Rattle.mass_units.specs.Spelling.{IsIndex};
ghost use Rattle.toml.specs.View.{view, table_view};
ghost use Rattle.aircraft_file.specs.Document.{Answers, key, optional, section_at, value_at};
ghost use Rattle.aircraft_file.specs.Forms.{array_of, index, mass, signed, text, whole};
ghost use Rattle.aircraft_file.specs.Lawful.{IsMass};
ghost use Rattle.aircraft_file.specs.Sections.{contents};
ghost use Rattle.aircraft_file.specs.Spellings.{is_registration, is_version};

use crate::fault::FileFault;
use crate::forms::{Form, read_array};
use crate::texts::{Registration, Version};
use crate::values::{read_index, read_number, read_registration, read_signed, read_version};
use mass_units::{Kg, Ticks};
use std::alloc::Global;
use toml::{Table, Value};

/// A section of the document: a table, or None where its key does not hold a table.
#[derive(Drop)]
pub struct Section<'a> {
    table: Option<&'a Table>,
}

impl<'a> Section<'a> {
    /// The section that is this table.
    pub fn of(table: &'a Table) -> Section<'a>
        ensures { contents result ≡ Some (table_view table.now) }
    {
        Section { table: Some(table) }
    }

    /// The section under this key.
    pub fn section(&self, name: &str) -> Section<'a>
        ensures { contents result ≡ section_at name.now (contents self.now) }
    {
        Section {
            table: self.value(name).and_then(|value| value.as_table()),
        }
    }

    /// The value at this key.
    #[tactic(auto, using(toml::proofs::Views::table_get))]
    pub fn value(&self, name: &str) -> Option<&'a Value>
        ensures { option_map (λ v. view v.now) result ≡ value_at name.now (contents self.now) }
    {
        self.table?.get(name)
    }

    /// The value at the key with this number and this name, which must be present.
    fn required(&self, number: usize, name: &str) -> Result<&'a Value, FileFault>
        ensures there { IfOk result (λ v.
            value_at name.now (contents self.now) ≡ Some (view v.now)) }
        ensures missing { IfErr result (λ fault. (fault ≡ FileFault.Missing number)
            × (value_at name.now (contents self.now) ≡ None)) }
    {
        self.value(name).ok_or(FileFault::Missing(number))
    }

    /// The key with this number and this name, a whole number from `least` to `most`.
    pub fn number(&self, number: usize, name: &str, least: u32, most: u32) -> Result<u32, FileFault>
        ensures value { result ≡ key number (whole least most) name.now (contents self.now) }
        ensures within { IfOk result (λ n. (least ≤ n) × (n ≤ most)) }
    {
        let value = self.required(number, name)?;
        read_number(value, least, most).ok_or(FileFault::Wrong(number))
    }

    /// The same, a mass.
    pub fn mass(&self, number: usize, name: &str, least: u32, most: u32) -> Result<Kg, FileFault>
        ensures value { result ≡ key number (mass least most) name.now (contents self.now) }
        ensures within { IfOk result (λ mass. IsMass least most mass) }
    {
        Ok(Kg(self.number(number, name, least, most)?))
    }

    /// The same, a whole number of at most this size, to either side of zero.
    pub fn signed(&self, number: usize, name: &str, most: u32) -> Result<i32, FileFault>
        requires { most ≤ 999999999 }
        ensures value { result ≡ key number (signed most) name.now (contents self.now) }
        ensures within { IfOk result (λ n. unsigned_abs n ≤ most) }
    {
        let value = self.required(number, name)?;
        read_signed(value, most).ok_or(FileFault::Wrong(number))
    }

    /// The same, the text of an index.
    pub fn index(&self, number: usize, name: &str) -> Result<Ticks, FileFault>
        ensures value { result ≡ key number index name.now (contents self.now) }
        ensures within { IfOk result (λ at. IsIndex at.0) }
    {
        let value = self.required(number, name)?;
        read_index(value).ok_or(FileFault::Wrong(number))
    }

    /// The same, the text of a registration.
    pub fn registration(&self, number: usize, name: &str) -> Result<Registration, FileFault>
        ensures value { result ≡ key number (text is_registration) name.now (contents self.now) }
        ensures spelled { IfOk result (λ r. is_registration r ≡ true) }
    {
        let value = self.required(number, name)?;
        read_registration(value).ok_or(FileFault::Wrong(number))
    }

    /// The same, the text of a version.
    pub fn version(&self, number: usize, name: &str) -> Result<Version, FileFault>
        ensures value { result ≡ key number (text is_version) name.now (contents self.now) }
        ensures spelled { IfOk result (λ v. is_version v ≡ true) }
    {
        let value = self.required(number, name)?;
        read_version(value).ok_or(FileFault::Wrong(number))
    }

    /// The same, an array of values in the form.
    pub fn array<F: Form>(
        &self,
        alloc: Global,
        number: usize,
        name: &str,
        form: &F,
    ) -> Result<Vec<F::Content>, FileFault>
        ensures value { Answers (λ list. list.items) result
            (key number (array_of (F.content form.now)) name.now (contents self.now)) }
        ensures limits { IfOk result (λ list. All (F.limits form.now) list.items) }
    {
        let value = self.required(number, name)?;
        read_array(alloc, form, value)?.ok_or(FileFault::Wrong(number))
    }

    /// The same, and an empty list where the key is absent.
    pub fn array_or_empty<F: Form>(
        &self,
        alloc: Global,
        number: usize,
        name: &str,
        form: &F,
    ) -> Result<Vec<F::Content>, FileFault>
        ensures value { Answers (λ list. list.items) result
            (optional number (array_of (F.content form.now)) (value_at name.now (contents self.now))) }
        ensures limits { IfOk result (λ list. All (F.limits form.now) list.items) }
    {
        let Some(value) = self.value(name) else {
            return Ok(Vec::new(alloc));
        };
        read_array(alloc, form, value)?.ok_or(FileFault::Wrong(number))
    }
}
