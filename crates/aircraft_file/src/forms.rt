//! Forms of the values in an array, and the reader of an array of such values.

ghost use Rattle.std.specs.Prelude.{◌≡◌, option_map, All, IfOk, IfSome};
ghost use Rattle.toml.specs.View.{view, items_view};
ghost use Rattle.aircraft_file.specs.Forms.{each, array_of};

use base_words::NoMemory;
use std::alloc::Global;
use toml::Value;

/// A form of a value in an array.
pub trait Form {
    ghost use Rattle.std.specs.Prelude.{◌≡◌, Option, IfOk, IfSome};
    ghost use Rattle.toml.specs.Data.{Data};
    ghost use Rattle.toml.specs.View.{view};

    /// What a value in this form says.
    type Content: Drop;

    ghost content: { Self → Data → Option Self.Content };

    ghost limits: { Self → Self.Content → Type 0 };

    /// What the value says. None where it is not in this form.
    fn read(&self, alloc: Global, value: &Value) -> Result<Option<Self::Content>, NoMemory>
        ensures value { IfOk result (λ read. read ≡ content self.now (view value.now)) }
        ensures limits { IfOk result (λ read. IfSome read (limits self.now)) };
}

/// What the values say. None where one of them is not in the form.
pub fn read_each<F: Form>(
    alloc: Global,
    form: &F,
    values: &[Value],
) -> Result<Option<Vec<F::Content>>, NoMemory>
    ensures value { IfOk result (λ read. option_map (λ list. list.items) read
        ≡ each (F.content form.now) (items_view values.now)) }
    ensures limits { IfOk result (λ read. IfSome read (λ list.
        All (F.limits form.now) list.items)) }
{
    let mut contents = Vec::new(alloc);
    for value in values {
        let Some(content) = form.read(alloc, value)? else {
            return Ok(None);
        };
        contents.push(content)?;
    }
    Ok(Some(contents))
}

/// What the values of an array say. None where the value is not an array of values in the form.
pub fn read_array<F: Form>(
    alloc: Global,
    form: &F,
    value: &Value,
) -> Result<Option<Vec<F::Content>>, NoMemory>
    ensures value { IfOk result (λ read. option_map (λ list. list.items) read
        ≡ array_of (F.content form.now) (view value.now)) }
    ensures limits { IfOk result (λ read. IfSome read (λ list.
        All (F.limits form.now) list.items)) }
{
    let Some(values) = value.as_array() else {
        return Ok(None);
    };
    read_each(alloc, form, values)
}
