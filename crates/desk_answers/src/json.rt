//! The JSON of answers: a function for each form.

ghost use Rattle.std.specs.Prelude.{◌≡◌, codes, false, IfOk};
ghost use Rattle.serde_json.specs.Data.{array, no_members, string};
ghost use Rattle.serde_json.specs.View.{view};
ghost use Rattle.serde_json.specs.Written.{has_float};
ghost use Rattle.trim.specs.Rules.{rule_text};
ghost use Rattle.desk_answers.specs.Answers.{json_answer};
ghost use Rattle.desk_answers.specs.Words.{edition_value, error_value, newest, opened_value, reason, rule_items, rules_told, value};

use crate::answer::Answer;
use base_words::NoMemory;
use keeper::Bytes;
use serde_json::{Value, json};
use std::alloc::Global;
use trim::{Rule, Rules};

/// The answer with this JSON.
fn json_answer(alloc: Global, status: u16, value: Value) -> Result<Answer, NoMemory>
    requires { has_float (view value) ≡ false }
    ensures { IfOk result (λ answer. answer ≡ json_answer status (view value)) }
{
    Ok(Answer {
        status,
        json: true,
        body: Bytes::from(value.to_vec(alloc)?),
    })
}

/// The edition of a flight.
pub fn edition_answer(alloc: Global, edition: u32) -> Result<Answer, NoMemory>
    ensures { IfOk result (λ answer. answer ≡ json_answer 200 (edition_value edition)) }
{
    json_answer(alloc, 200, json!(in alloc; {"edition": edition})?)
}

/// The key of a flight that was opened.
pub fn opened_answer(alloc: Global, key: &str) -> Result<Answer, NoMemory>
    ensures { IfOk result (λ answer. answer ≡ json_answer 201 (opened_value key.now)) }
{
    json_answer(alloc, 201, json!(in alloc; {"edition": 1, "key": key})?)
}

/// Another edition was asked for than the newest one.
pub fn edition_error(alloc: Global, word: &str, edition: u32) -> Result<Answer, NoMemory>
    ensures { IfOk result (λ answer. answer ≡ json_answer 409 (error_value word.now (newest edition))) }
{
    json_answer(
        alloc,
        409,
        json!(in alloc; {"error": word, "newest": edition})?,
    )
}

/// An error with the number of its reason.
pub fn reason_error(alloc: Global, word: &str, number: u32) -> Result<Answer, NoMemory>
    ensures { IfOk result (λ answer. answer ≡ json_answer 422 (error_value word.now (reason number no_members))) }
{
    json_answer(
        alloc,
        422,
        json!(in alloc; {"error": word, "reason": number})?,
    )
}

/// An error with the number of its reason, and with a value.
pub fn value_error(alloc: Global, word: &str, number: u32, amount: u64) -> Result<Answer, NoMemory>
    ensures { IfOk result (λ answer. answer ≡ json_answer 422 (error_value word.now (reason number (value amount)))) }
{
    json_answer(
        alloc,
        422,
        json!(in alloc; {"error": word, "reason": number, "value": amount})?,
    )
}

/// The text of a rule.
fn rule_value(alloc: Global, rule: Rule) -> Result<Value, NoMemory>
    ensures { IfOk result (λ v. view v ≡ string (rule_text rule)) }
{
    Ok(json!(in alloc; rule.text())?)
}

/// Rules that are broken, by their texts.
fn rules_value(alloc: Global, rules: &Rules) -> Result<Value, NoMemory>
    ensures texts { IfOk result (λ v. view v ≡ array (rule_items rules.now.items)) }
    ensures exact { IfOk result (λ v. has_float (view v) ≡ false) }
{
    let mut texts = Vec::new(alloc);
    for rule in rules.as_slice() {
        texts.push(rule_value(alloc, *rule)?)?;
    }
    Ok(Value::Array(texts))
}

/// A flight breaks rules.
pub fn broken_error(alloc: Global, rules: &Rules) -> Result<Answer, NoMemory>
    ensures { IfOk result (λ answer. answer ≡ json_answer 422 (error_value (codes "broken") (rules_told rules.now.items))) }
{
    let rules = rules_value(alloc, rules)?;
    json_answer(
        alloc,
        422,
        json!(in alloc; {"error": "broken", "rules": rules})?,
    )
}

/// A flight breaks rules with a late change.
pub fn breaking_error(alloc: Global, rules: &Rules) -> Result<Answer, NoMemory>
    ensures { IfOk result (λ answer. answer ≡ json_answer 422 (error_value (codes "lmc") (reason 6 (rules_told rules.now.items)))) }
{
    let rules = rules_value(alloc, rules)?;
    json_answer(
        alloc,
        422,
        json!(in alloc; {"error": "lmc", "reason": 6, "rules": rules})?,
    )
}
