//! The fields of the answers of `olt rates`.

ghost use Rattle.std.specs.Prelude.{◌≡◌, map};
ghost use Rattle.pon_look.specs.Answers.{change_fields, refused_fields, sold_fields, sums_fields, sure_fields};
ghost use Rattle.pon_look.specs.Fields.{said};

use crate::alloc_fields::descriptor_fields;
use crate::extent::Extent;
use crate::field::{Field, FieldValue};
use crate::port_tallies::Refused;
use crate::printer::Printer;
use pon_admit::Row;
use pon_sold::Sold;
use pon_sure::Sure;
use pon_units::PortNo;
use pon_why::{Change, Sums};
use std::alloc::AllocError;

// Makes the fields of a chapter that is refused at an entry.
fn refused_fields<'a>(refused: &Refused) -> [Field<'a>; 3]
    ensures { map said result ≡ refused_fields refused.now }
{
    let entry = FieldValue::Number(refused.entry as u64);
    [
        Field::number("port", u64::from(refused.port.get())),
        Field::number("chapter", refused.chapter),
        Field::named("refused at entry", "refused", entry),
    ]
}

/// Prints a chapter that is refused at an entry. `Err` only if memory is refused.
pub(crate) fn refused_line(printer: &mut Printer, refused: &Refused) -> Result<String, AllocError> {
    printer.line(&refused_fields(refused))
}

// Makes the fields of the Alloc-ID and of the frame of a descriptor.
fn change_fields<'a>(port: PortNo, change: &Change) -> [Field<'a>; 4]
    ensures { map said result ≡ change_fields port change.now }
{
    let from = FieldValue::Number(change.frame.get());
    [
        Field::number("port", u64::from(port.get())),
        Field::number("alloc", u64::from(change.row.alloc_id.get())),
        Field::named("from frame", "from", from),
        Field::number("onu", u64::from(change.row.onu.get())),
    ]
}

/// Prints the descriptor that an Alloc-ID has from a frame on. `Err` only if memory is refused.
pub(crate) fn change_line(
    printer: &mut Printer,
    port: PortNo,
    change: &Change,
) -> Result<String, AllocError> {
    printer.add(&change_fields(port, change))?;
    printer.add_member("descriptor", &descriptor_fields(&change.row.descriptor))?;
    printer.line(&[Field::number("weight", change.weight)])
}

/// What maps add up to for an Alloc-ID.
#[derive(Clone, Copy)]
pub(crate) struct Figures {
    pub sums: Sums,
    /// The most maps of consecutive frames that granted no words.
    pub idle: u64,
    /// What was sold, and what was got of it.
    pub sold: Sold,
    /// What is sure by the roster of the last map, if the Alloc-ID is in it.
    pub sure: Option<Sure>,
}

impl Figures {
    // The fields of the sums: mean rates in kbit/s.
    fn sums_fields<'a>(&self, row: &Row) -> [Field<'a>; 8]
        ensures { map said result ≡ sums_fields row.now.onu self.now }
    {
        let Sums {
            maps,
            load,
            guaranteed,
            granted,
            surplus,
            ..
        } = self.sums;
        let (load, owed) = (
            FieldValue::Rates { sum: load, maps },
            FieldValue::Rates {
                sum: guaranteed,
                maps,
            },
        );
        let granted = FieldValue::Words { sum: granted, maps };
        let surplus = FieldValue::Rates { sum: surplus, maps };
        [
            Field::number("onu", u64::from(row.onu.get())),
            Field::number("frames", maps),
            Field::named("load", "load_sum", load),
            Field::named("owed", "owed_sum", owed),
            Field::named("granted", "granted_words", granted),
            Field::named("surplus", "surplus_sum", surplus),
            Field::number("below", self.sums.below),
            Field::number("idle", self.idle),
        ]
    }

    // The fields of what was sold and what was got of it, in words and maps.
    fn sold_fields<'a>(&self) -> [Field<'a>; 5]
        ensures { map said result ≡ sold_fields self.now.sold }
    {
        let sold = &self.sold;
        let bound = sold.wait_bound();
        let wait = bound.map(|_| sold.wait);
        [
            Field::named("sold", "words", FieldValue::Number(sold.sold_words())),
            Field::number("granted", sold.words),
            Field::number("short", sold.short_words()),
            Field::new("wait", FieldValue::Maybe(wait)),
            Field::new("bound", FieldValue::Maybe(bound)),
        ]
    }

    // The fields of what is sure: rates in kbit/s, and the longest wait in maps and in milliseconds.
    fn sure_fields<'a>(&self) -> [Field<'a>; 5]
        ensures { map said result ≡ sure_fields self.now.sure }
    {
        let guaranteed = self.sure.map(|sure| u64::from(sure.guaranteed.get()));
        let surplus = self.sure.map(|sure| sure.surplus);
        let wait = self.sure.and_then(|sure| sure.wait);
        [
            Field::words("sure"),
            Field::new("guaranteed", FieldValue::Maybe(guaranteed)),
            Field::new("surplus", FieldValue::Maybe(surplus)),
            Field::new("wait", FieldValue::Maybe(wait)),
            Field::named("ms", "", FieldValue::Milliseconds(wait)),
        ]
    }

    // Prints the sums.
    fn print_sums(
        &self,
        printer: &mut Printer,
        row: &Row,
        extent: Extent,
    ) -> Result<(), AllocError> {
        printer.add(&self.sums_fields(row))?;
        printer.add(&[partial(extent)])?;
        printer.end_line()
    }

    // Prints what was sold.
    fn print_sold(&self, printer: &mut Printer, extent: Extent) -> Result<(), AllocError> {
        printer.add_member("sold", &self.sold_fields())?;
        printer.add_text(&[partial(extent)])?;
        printer.end_line()
    }

    // Prints what is sure.
    fn print_sure(&self, printer: &mut Printer) -> Result<(), AllocError> {
        let fields = self.sure_fields();
        match self.sure {
            Some(_) => printer.add_member("sure", &fields),
            None => printer.add_null("sure", &fields),
        }
    }
}

// The word at the end of the lines of sums and of what was sold.
fn partial<'a>(extent: Extent) -> Field<'a> {
    Field::new("partial", FieldValue::Mark(extent == Extent::Partial))
}

/// Prints the figures of an Alloc-ID: its sums, what was sold and got, and what is sure. In JSON the sums are exact. `Err`
/// only if memory is refused.
pub(crate) fn figures_lines(
    printer: &mut Printer,
    extent: Extent,
    port: PortNo,
    row: &Row,
    figures: &Figures,
) -> Result<String, AllocError> {
    let place = [
        Field::number("port", u64::from(port.get())),
        Field::number("alloc", u64::from(row.alloc_id.get())),
    ];
    printer.add(&place)?;
    figures.print_sums(printer, row, extent)?;
    printer.add_text(&place)?;
    figures.print_sold(printer, extent)?;
    printer.add_text(&place)?;
    figures.print_sure(printer)?;
    printer.end()
}
