//! The lines of `jk info --all` as an object in JSON.

use jk_math::Fault;
use serde_json::{Map, Value, json};
use std::alloc::{AllocError, Global};

/// The names of the words of the first line.
static WORDS: [&str; 9] = [
    "width",
    "height",
    "components",
    "depth",
    "levels",
    "layers",
    "order",
    "tiles",
    "packets",
];

/// A number, or a text that is none.
fn number_or_text(alloc: Global, text: &str) -> Result<Value, AllocError> {
    match text.parse::<u64>() {
        Ok(number) => Ok(Value::from(number)),
        Err(_) => Value::try_from_str(alloc, text),
    }
}

/// A pair of values that a sign parts.
fn pair(alloc: Global, text: &str, sign: char) -> Result<Value, AllocError> {
    let Some((first, second)) = text.split_once(sign) else {
        return number_or_text(alloc, text);
    };
    let (first, second) = (
        number_or_text(alloc, first)?,
        number_or_text(alloc, second)?,
    );
    json!(in alloc; [first, second])
}

/// The values behind a label as a list, each a pair where there is a sign.
fn list(alloc: Global, values: &str, sign: char) -> Result<Value, AllocError> {
    let mut items = Vec::new(alloc);
    if values != "none" {
        for value in values.split(' ') {
            items.push(pair(alloc, value, sign)?)?;
        }
    }
    Ok(Value::Array(items))
}

/// What stands behind a label.
fn value_of(alloc: Global, label: &str, values: &str) -> Result<Value, AllocError> {
    if values == "differ" {
        return Value::try_from_str(alloc, values);
    }
    match label {
        "boxes" | "passed-over" => list(alloc, values, '='),
        "precincts" | "sizes" => list(alloc, values, 'x'),
        "block-style" => list(alloc, values, ' '),
        "code-blocks" => pair(alloc, values, 'x'),
        "SOP" | "EPH" => Ok(Value::Bool(values == "yes")),
        _ => number_or_text(alloc, values),
    }
}

/// Puts a value into an object.
fn put(
    alloc: Global,
    object: &mut Map<String, Value>,
    name: &str,
    value: Value,
) -> Result<(), AllocError> {
    object.insert(String::from_str(alloc, name)?, value)?;
    Ok(())
}

/// Puts a text into an object.
fn put_text(
    alloc: Global,
    object: &mut Map<String, Value>,
    name: &str,
    text: &str,
) -> Result<(), AllocError> {
    put(alloc, object, name, Value::try_from_str(alloc, text)?)
}

/// Puts the words of the first line into an object.
fn put_words(alloc: Global, object: &mut Map<String, Value>, line: &str) -> Result<(), AllocError> {
    for (name, word) in WORDS.iter().zip(line.split(' ')) {
        put(alloc, object, name, number_or_text(alloc, word)?)?;
    }
    Ok(())
}

/// An object on a line.
fn line_of(alloc: Global, object: Map<String, Value>) -> Result<String, AllocError> {
    let mut text = Value::Object(object).to_string(alloc)?;
    text.push_str("\n")?;
    Ok(text)
}

/// What a file of a name holds, as the lines of `jk info --all` have it, as an object.
pub(crate) fn info_object(alloc: Global, name: &str, text: &str) -> Result<String, AllocError> {
    let mut object = Map::new(alloc);
    put_text(alloc, &mut object, "file", name)?;
    let (first, others) = text.split_once('\n').unwrap_or((text, ""));
    put_words(alloc, &mut object, first)?;
    for line in others.split('\n') {
        if let Some((label, values)) = line.split_once(": ") {
            put(alloc, &mut object, label, value_of(alloc, label, values)?)?;
        }
    }
    line_of(alloc, object)
}

/// A file of a name that has an error, as an object.
pub(crate) fn error_object(alloc: Global, name: &str, fault: Fault) -> Result<String, AllocError> {
    let mut object = Map::new(alloc);
    put_text(alloc, &mut object, "file", name)?;
    let error = format!(in alloc; "{fault}")?;
    put_text(alloc, &mut object, "error", error.as_str())?;
    line_of(alloc, object)
}
