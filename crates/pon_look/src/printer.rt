//! The printer of answers.

use crate::field::Field;
use crate::json::{Members, object_line, object_of, put_fields};
use crate::query::Format;
use crate::text::{push_fields, push_form};
use serde_json::{Map, Value, put};
use std::alloc::{AllocError, Global};
use std::mem;

/// Prints answers: each as lines of text, or as an object of JSON on a line. Each `Err` says that memory was refused.
#[derive(Drop)]
pub(crate) struct Printer {
    alloc: Global,
    // The lines of the answer so far.
    text: String,
    // The members of its object so far; `None` if it is printed as text.
    object: Option<Members>,
}

impl Printer {
    /// Makes a printer of a format.
    pub(crate) fn new(alloc: Global, format: Format) -> Printer {
        let object = match format {
            Format::Text => None,
            Format::Json => Some(Map::new(alloc)),
        };
        let text = String::new(alloc);
        Printer {
            alloc,
            text,
            object,
        }
    }

    /// Adds fields to the line, or to the object.
    pub(crate) fn add(&mut self, fields: &[Field]) -> Result<(), AllocError> {
        match &mut self.object {
            None => push_fields(&mut self.text, fields),
            Some(object) => put_fields(object, self.alloc, fields),
        }
    }

    /// Adds fields to the line, or as the object of a member.
    pub(crate) fn add_member(&mut self, key: &str, fields: &[Field]) -> Result<(), AllocError> {
        match &mut self.object {
            None => push_fields(&mut self.text, fields),
            Some(object) => put(object, self.alloc, key, object_of(self.alloc, fields)?),
        }
    }

    /// Adds fields to the line, or a member that is null.
    pub(crate) fn add_null(&mut self, key: &str, fields: &[Field]) -> Result<(), AllocError> {
        match &mut self.object {
            None => push_fields(&mut self.text, fields),
            Some(object) => put(object, self.alloc, key, Value::Null),
        }
    }

    /// Adds fields to the line, if there is one.
    pub(crate) fn add_text(&mut self, fields: &[Field]) -> Result<(), AllocError> {
        match &self.object {
            None => push_fields(&mut self.text, fields),
            Some(_) => Ok(()),
        }
    }

    /// Adds fields to the object, or as the object of a member, if there is one.
    pub(crate) fn add_unseen(
        &mut self,
        key: Option<&str>,
        fields: &[Field],
    ) -> Result<(), AllocError> {
        match (&self.object, key) {
            (None, _) => Ok(()),
            (Some(_), None) => self.add(fields),
            (Some(_), Some(key)) => self.add_member(key, fields),
        }
    }

    /// Ends the line, if there is one.
    pub(crate) fn end_line(&mut self) -> Result<(), AllocError> {
        match &self.object {
            None => self.text.push('\n'),
            Some(_) => Ok(()),
        }
    }

    /// Adds a line of this form, if there are lines: the field of a key stands in the place of `{key}`.
    pub(crate) fn add_form(
        &mut self,
        form: &str,
        fields: &[Field],
        more: &[Field],
    ) -> Result<(), AllocError> {
        match &self.object {
            None => push_form(&mut self.text, form, fields, more),
            Some(_) => Ok(()),
        }
    }

    /// Ends the answer, and returns its lines, or the line of its object.
    pub(crate) fn end(&mut self) -> Result<String, AllocError> {
        let alloc = self.alloc;
        self.end_line()?;
        match &mut self.object {
            None => Ok(mem::replace(&mut self.text, String::new(alloc))),
            Some(object) => object_line(alloc, mem::replace(object, Map::new(alloc))),
        }
    }

    /// Prints an answer of these fields, which is a line of text.
    pub(crate) fn line(&mut self, fields: &[Field]) -> Result<String, AllocError> {
        self.add(fields)?;
        self.end()
    }
}
