//! Tables of cases for tests, as texts: a row for each case, so that one loop goes over them all and a test is one call. A
//! table of tuples, or an assertion for each case, would be proved part by part.
#![tactic(auto)]

use std::alloc::Global;
use std::test::Fail;

/// What a table is about.
pub trait Subject {
    /// What is said of a case.
    fn said(&self, alloc: Global, case: &str) -> Result<String, Fail>;
}

/// Passes where of each case is said what its row tells, as in `due|case`. A `~` in a row stands for the end of a line.
pub fn check<S: Subject>(alloc: Global, subject: &S, rows: &str) -> Result<(), Fail> {
    for row in rows.split('\n') {
        check_row(alloc, subject, row)?;
    }
    Ok(())
}

fn check_row<S: Subject>(alloc: Global, subject: &S, row: &str) -> Result<(), Fail> {
    let row = String::from_str(alloc, row)?.replace(alloc, "~", "\n")?;
    let (due, case) = row.as_str().split_once('|').unwrap_or((row.as_str(), ""));
    let said = subject.said(alloc, case)?;
    if said.as_str() == due {
        Ok(())
    } else {
        Err(Fail::new(format_args!("{case}: {said}")))
    }
}

/// The field at this place of a case, with a `|` between two of them.
pub fn field(case: &str, place: usize) -> Result<&str, Fail> {
    match case.split('|').nth(place) {
        Some(field) => Ok(field),
        None => Err(Fail::new("a case has its fields")),
    }
}

/// The numbers of a text, with a space between two of them.
pub fn numbers(alloc: Global, text: &str) -> Result<Vec<i64>, Fail> {
    let mut numbers = Vec::new(alloc);
    for word in text.split_whitespace() {
        numbers.push(word.parse::<i64>()?)?;
    }
    Ok(numbers)
}

/// The number at this place; 0 behind the last.
pub fn at(numbers: &[i64], place: usize) -> i64 {
    match numbers.get(place) {
        Some(number) => *number,
        None => 0,
    }
}

/// The same of a number that is not negative.
pub fn unsigned_at(numbers: &[i64], place: usize) -> u32 {
    u32::try_from(at(numbers, place)).unwrap_or(0)
}

/// The text with edits, as in `old=>new|old=>new`: each old text is replaced wherever it stands.
pub fn edited(alloc: Global, text: &str, edits: &str) -> Result<String, Fail> {
    let mut text = String::from_str(alloc, text)?;
    for edit in edits.split('|') {
        if let Some((old, new)) = edit.split_once("=>") {
            text = text.replace(alloc, old, new)?;
        }
    }
    Ok(text)
}

/// The text with this in place of the line with the number, which counts from 1.
pub fn with_line(alloc: Global, text: &str, number: usize, line: &str) -> Result<String, Fail> {
    let mut edited = String::new(alloc);
    for (at, old) in text.split('\n').enumerate() {
        if at > 0 {
            edited.push('\n')?;
        }
        edited.push_str(if at + 1 == number { line } else { old })?;
    }
    Ok(edited)
}
