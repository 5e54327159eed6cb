//! Answers as JSON: objects of fields.

use crate::field::{Field, FieldValue, LevelText};
use crate::words::class_word;
use serde_json::{Map, Value, json, put};
use std::alloc::{AllocError, Global};
use std::num::nearest_u64_to_f64;

/// The frames of a second.
const FRAMES_PER_SECOND: f64 = 8_000.0;

/// The members of an object, which is printed in the order of their keys.
pub(crate) type Members = Map<String, Value>;

/// Makes the value of a text. `Err` only if memory is refused.
pub(crate) fn text_value(alloc: Global, text: &str) -> Result<Value, AllocError> {
    String::from_str(alloc, text).map(Value::from)
}

// Makes the value of a number that may be missing.
fn number_or_null(number: Option<u64>) -> Value {
    match number {
        Some(number) => Value::from(number),
        None => Value::Null,
    }
}

// Makes the value of a field.
fn value_of(alloc: Global, value: FieldValue) -> Result<Value, AllocError> {
    match value {
        FieldValue::Number(number) | FieldValue::Count(number) => Ok(Value::from(number)),
        FieldValue::Maybe(number) | FieldValue::End(number) | FieldValue::Milliseconds(number) =>
            Ok(number_or_null(number)),
        FieldValue::Chapters(first, last) => json!(in alloc; [first, last]),
        FieldValue::Bit(bit) | FieldValue::Mark(bit) => Ok(Value::from(bit)),
        FieldValue::Class(class) => text_value(alloc, class_word(class)),
        FieldValue::Level(level) => Ok(Value::from(LevelText(level).to_string(alloc)?)),
        FieldValue::Reason(why) => Ok(Value::from(why.to_string(alloc)?)),
        FieldValue::Seconds(maps) => {
            Ok(Value::from(nearest_u64_to_f64(maps) / FRAMES_PER_SECOND))
        }
        FieldValue::Rates { sum, .. } | FieldValue::Words { sum, .. } => Ok(Value::from(sum)),
    }
}

/// Adds a member for each field that stands in JSON. `Err` only if memory is refused.
pub(crate) fn put_fields(
    object: &mut Members,
    alloc: Global,
    fields: &[Field],
) -> Result<(), AllocError> {
    for field in fields {
        if field.is_in_json() {
            put(object, alloc, field.key(), value_of(alloc, field.value())?)?;
        }
    }
    Ok(())
}

/// Makes the object of fields. `Err` only if memory is refused.
pub(crate) fn object_of(alloc: Global, fields: &[Field]) -> Result<Value, AllocError> {
    let mut object = Map::new(alloc);
    put_fields(&mut object, alloc, fields)?;
    Ok(Value::Object(object))
}

/// Makes the line of an object. `Err` only if memory is refused.
pub(crate) fn object_line(alloc: Global, object: Members) -> Result<String, AllocError> {
    let mut line = Value::Object(object).to_string(alloc)?;
    line.push('\n')?;
    Ok(line)
}
