//! The fields of the answers of `olt why`.

ghost use Rattle.std.specs.Prelude.{◌≡◌, ◌+◌, ◌≤◌, ◌++◌, length, map};
ghost use Rattle.pon_look.specs.Answers.{class_fields, formula_fields, place_fields, rate_fields, report_fields, share_fields};
ghost use Rattle.pon_look.specs.Fields.{said};
ghost use Rattle.pon_look.specs.declared.why_fields.TheConstants.{RATES, SHARE};

use crate::alloc_fields::{descriptor_fields, structure_fields};
use crate::field::{Field, FieldValue};
use crate::printer::Printer;
use crate::replay::MapExplanation;
use pon_admit::Row;
use pon_bwmap::Alloc;
use pon_cert::{Level, MapCert};
use pon_descr::Class;
use pon_guar::Counted;
use pon_units::{AllocId, FrameNo, PortNo, WORD_RATE, whole};
use pon_why::{Explanation, Reported};
use std::alloc::AllocError;

/// The map that is explained, and for which Alloc-IDs.
#[derive(Clone, Copy)]
pub(crate) struct MapPlace {
    pub port: PortNo,
    pub chapter: u64,
    pub entry: usize,
    pub frame: FrameNo,
    pub alloc: Option<AllocId>,
}

/// What is shown of an Alloc-ID.
#[derive(Clone, Copy)]
pub(crate) struct Shown<'a> {
    pub row: &'a Explanation,
    /// Its structure in the map; `None` if the map is too short.
    pub structure: Option<&'a Alloc>,
    /// The level of its class; `None` if the class shares no surplus.
    pub level: Option<Level>,
    pub reported: Option<Reported>,
}

// The port and the frame of the map.
fn place_fields<'a>(place: &MapPlace) -> [Field<'a>; 2]
    ensures { map said result ≡ place_fields place.now }
{
    [
        Field::number("port", u64::from(place.port.get())),
        Field::number("frame", place.frame.get()),
    ]
}

// The fields of a class in a map: its name in text, its surplus in kbit/s, and its level.
fn class_fields(name: &str, surplus: u64, level: Level) -> [Field<'_>; 3]
    ensures { map said result ≡ class_fields name.now surplus level }
{
    [
        Field::words(name),
        Field::number("surplus", surplus),
        Field::new("level", FieldValue::Level(level)),
    ]
}

/// Prints the map: the surplus and the level of each class. `Err` only if memory is refused.
pub(crate) fn map_line(
    printer: &mut Printer,
    place: &MapPlace,
    explained: &MapExplanation,
    cert: &MapCert,
) -> Result<String, AllocError> {
    printer.add(&place_fields(place))?;
    printer.add(&[
        Field::number("chapter", place.chapter),
        Field::number("entry", place.entry as u64),
    ])?;
    let na = class_fields("na", explained.non_assured, cert.na.level);
    printer.add_member("na", &na)?;
    let be = class_fields("be", explained.best_effort, cert.be.level);
    printer.add_member("be", &be)?;
    printer.end()
}

// The fields of a counted report.
fn report_fields<'a>(counted: &Counted, reported: &Reported) -> [Field<'a>; 5]
    ensures { map said result ≡ report_fields counted.now reported.now }
{
    let occupancy = reported.occupancy.map(u64::from);
    let granted = FieldValue::Number(reported.granted);
    [
        Field::words("  report"),
        Field::number("frame", counted.frame.get()),
        Field::new("occupancy", FieldValue::Maybe(occupancy)),
        Field::named("granted since", "granted", granted),
        Field::number("left", u64::from(counted.words.get())),
    ]
}

// The number of fields of `rates` and of `share`, which stand in this order in the numbers of an Alloc-ID.
const RATES: usize = 5;

const SHARE: usize = 5;

// Makes the numbers of an Alloc-ID: those of its rates, those of its share in the surplus of the class, and those that stand
// in formulas alone.
fn number_fields<'a>(row: &Explanation, level: Option<Level>) -> [Field<'a>; RATES + SHARE + 3]
    ensures { map said result ≡ rate_fields row.now ++ (share_fields row.now level ++ formula_fields row.now) }
{
    let (num, den) = (row.surplus.num(), row.surplus.den());
    let level = level.unwrap_or(Level::All);
    let (share, surplus) = (whole(num, den), Level::At(row.surplus));
    [
        Field::number("load", u64::from(row.load.get())),
        Field::number("guaranteed", u64::from(row.guaranteed.get())),
        Field::number("carry", u64::from(row.carry)),
        Field::number("owed", row.owed),
        Field::number("words", row.owed / WORD_RATE),
        Field::number("weight", row.item.weight),
        Field::number("cap", row.item.cap),
        Field::new("level", FieldValue::Level(level)),
        Field::number("num", num),
        Field::number("den", den),
        Field::new("surplus", FieldValue::Level(surplus)),
        Field::named("whole surplus", "share", FieldValue::Number(share)),
        Field::named("", "unit", FieldValue::Number(WORD_RATE)),
    ]
}

// Prints the counted report, and the load.
fn print_load(printer: &mut Printer, shown: &Shown, numbers: &[Field]) -> Result<(), AllocError> {
    match (&shown.row.counted, &shown.reported) {
        (Some(counted), Some(reported)) => {
            let report = report_fields(counted, reported);
            printer.add_member("report", &report)?;
            printer.end_line()?;
            printer.add_form("  {load} = {unit} * {left}", &report, numbers)
        }
        _ => {
            printer.add_null("report", &[Field::words("  report -")])?;
            printer.end_line()?;
            printer.add_form("  {load}: no report counts", &[], numbers)
        }
    }
}

// Returns how the weight follows from the descriptor.
fn weight_form(class: Class) -> &'static str {
    match class {
        Class::BestEffort => "  {weight} = {max} - {fixed} - {assured}",
        Class::Plain | Class::NonAssured => "  {weight} = {fixed} + {assured}",
    }
}

// Returns what the surplus rate is: the cap, or the level times the weight.
fn surplus_form(row: &Explanation) -> &'static str {
    let (num, den) = (u128::from(row.surplus.num()), u128::from(row.surplus.den()));
    if num == u128::from(row.item.cap) * den {
        "  {surplus} = {cap}"
    } else {
        "  {surplus} = level * {weight}"
    }
}

// Prints the share in the surplus of the class.
fn print_share(
    printer: &mut Printer,
    shown: &Shown,
    descriptor: &[Field],
    numbers: &[Field],
) -> Result<(), AllocError>
    requires { RATES + SHARE ≤ length numbers.now }
{
    if shown.level.is_none() {
        printer.add_null("share", &[])?;
        return printer.add_form("  surplus 0: the class shares none", &[], &[]);
    }
    printer.add_unseen(Some("share"), &numbers[RATES..RATES + SHARE])?;
    let class = shown.row.row.descriptor.class();
    let cap = "  {cap} = min({max}, max({load}, {fixed})) - {guaranteed}";
    printer.add_form(weight_form(class), descriptor, numbers)?;
    printer.add_form(cap, descriptor, numbers)?;
    printer.add_form("  {level}", &[], numbers)?;
    printer.add_form(surplus_form(shown.row), &[], numbers)
}

// Prints what is owed, and the words.
fn print_words(printer: &mut Printer, numbers: &[Field]) -> Result<(), AllocError> {
    printer.add_form("  {carry}", &[], numbers)?;
    printer.add_form("  {owed} = {carry} + {guaranteed} + {share}", &[], numbers)?;
    printer.add_form("  {words} = {owed} / {unit}", &[], numbers)
}

// Prints the structure.
fn print_structure(printer: &mut Printer, structure: Option<&Alloc>) -> Result<(), AllocError> {
    match structure {
        None => printer.add_null("structure", &[Field::words("  structure -")]),
        Some(structure) => {
            printer.add_text(&[Field::words("  structure")])?;
            printer.add_member("structure", &structure_fields(structure))
        }
    }
}

// Prints the ONU and the descriptor of an Alloc-ID.
fn print_descriptor(
    printer: &mut Printer,
    row: &Row,
    descriptor: &[Field],
) -> Result<(), AllocError> {
    printer.add(&[
        Field::number("alloc", u64::from(row.alloc_id.get())),
        Field::number("onu", u64::from(row.onu.get())),
    ])?;
    printer.add_member("descriptor", descriptor)?;
    printer.end_line()
}

/// Prints an Alloc-ID, and last its structure in the map. `Err` only if memory is refused.
pub(crate) fn row_lines(
    printer: &mut Printer,
    place: &MapPlace,
    shown: &Shown,
) -> Result<String, AllocError> {
    let row = &shown.row.row;
    let descriptor = descriptor_fields(&row.descriptor);
    let numbers = number_fields(shown.row, shown.level);
    let guaranteed = "  {guaranteed} = min({fixed} + {assured}, max({fixed}, {load}))";
    printer.add_unseen(None, &place_fields(place))?;
    printer.add_unseen(Some("rates"), &numbers[..RATES])?;
    print_descriptor(printer, row, &descriptor)?;
    print_load(printer, shown, &numbers)?;
    printer.add_form(guaranteed, &descriptor, &numbers)?;
    print_share(printer, shown, &descriptor, &numbers)?;
    print_words(printer, &numbers)?;
    print_structure(printer, shown.structure)?;
    printer.end()
}
