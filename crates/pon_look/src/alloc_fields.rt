//! The fields of an Alloc-ID: its descriptor, and its structure in a map.

ghost use Rattle.std.specs.Prelude.{◌≡◌, map};
ghost use Rattle.pon_look.specs.Answers.{descriptor_fields, structure_fields};
ghost use Rattle.pon_look.specs.Fields.{said};

use crate::field::{Field, FieldValue};
use pon_bwmap::Alloc;
use pon_descr::Descriptor;

/// The fields of a descriptor, rates in kbit/s.
pub(crate) fn descriptor_fields<'a>(descriptor: &Descriptor) -> [Field<'a>; 4]
    ensures { map said result ≡ descriptor_fields descriptor.now }
{
    [
        Field::number("fixed", u64::from(descriptor.fixed().get())),
        Field::number("assured", u64::from(descriptor.assured().get())),
        Field::number("max", u64::from(descriptor.max().get())),
        Field::new("class", FieldValue::Class(descriptor.class())),
    ]
}

/// The fields of an allocation structure, in the order of its bits.
pub(crate) fn structure_fields<'a>(structure: &Alloc) -> [Field<'a>; 7]
    ensures { map said result ≡ structure_fields structure.now }
{
    let start = structure.start().map(u64::from);
    [
        Field::number("alloc", u64::from(structure.id())),
        Field::new("dbru", FieldValue::Bit(structure.dbru())),
        Field::new("ploam", FieldValue::Bit(structure.ploam())),
        Field::new("start", FieldValue::Maybe(start)),
        Field::number("grant", u64::from(structure.grant())),
        Field::new("fwi", FieldValue::Bit(structure.fwi())),
        Field::number("profile", u64::from(structure.profile())),
    ]
}
