//! Answers as text: lines of fields.

use crate::field::Field;
use std::alloc::AllocError;
use std::fmt::Write;

// Appends a blank to a line that is begun.
fn push_blank(text: &mut String) -> Result<(), AllocError> {
    if text.is_empty() || text.ends_with('\n') {
        return Ok(());
    }
    text.push(' ')
}

/// Appends those of the fields that stand in text, with a blank before each that does not begin a line. `Err` only if memory
/// is refused.
pub(crate) fn push_fields(text: &mut String, fields: &[Field]) -> Result<(), AllocError> {
    for field in fields {
        if field.is_in_text() {
            push_blank(text)?;
            write!(text, "{field}")?;
        }
    }
    Ok(())
}

// Appends a part of a form: after a key and `}`, of which the field is appended, comes text.
fn push_part(
    text: &mut String,
    part: &str,
    fields: &[Field],
    more: &[Field],
) -> Result<(), AllocError> {
    let Some((key, rest)) = part.split_once('}') else {
        return text.push_str(part);
    };
    if let Some(field) = fields.iter().chain(more).find(|field| field.key() == key) {
        write!(text, "{field}")?;
    }
    text.push_str(rest)
}

/// Appends a line of this form, in which the field of a key stands in the place of `{key}`. `Err` only if memory is refused.
pub(crate) fn push_form(
    text: &mut String,
    form: &str,
    fields: &[Field],
    more: &[Field],
) -> Result<(), AllocError> {
    for part in form.split('{') {
        push_part(text, part, fields, more)?;
    }
    text.push('\n')
}
