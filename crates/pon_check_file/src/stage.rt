//! The parsed part of a check file, and how the next line changes it.

ghost use Rattle.std.specs.Prelude.{◌≡◌, ◌<◌, ◌≤◌, ◌+◌, ◌-◌, ◌^◌, [], None, IfOk, length};
ghost use Rattle.pon_check_file.specs.CheckLines.{item_on_line};
ghost use Rattle.pon_check_file.specs.Stages.{IsFew, Takes, goes_on, lines_before, said};
ghost use Rattle.pon_check_file.specs.declared.stage.Stage.TheVariants as stage;

use crate::file::{CheckFile, Parsed};
use crate::lines::{item_on_line, level_on_line, surplus_of};
use crate::set::flags_of;
use pon_cert::{ClassCert, Item, Level, MAX_ITEMS};
use std::alloc::{AllocError, Global};

/// A surplus, and the items that share it so far.
#[derive(Drop)]
pub(crate) struct Shared {
    /// Surplus that the items share, in kbit/s.
    pub surplus: u64,
    /// Items so far, 0 to 512.
    pub items: Vec<Item>,
}

/// A problem and its level.
#[derive(Drop)]
pub(crate) struct Levelled {
    /// The problem.
    pub shared: Shared,
    /// The level.
    pub level: Level,
}

/// A whole file, and the number of its lines.
#[derive(Drop)]
pub(crate) struct Filled {
    /// The file.
    pub file: CheckFile,
    /// Number of lines so far.
    pub lines: u64,
}

/// The parsed lines so far, which decide what the next line may be.
#[derive(Drop)]
pub(crate) enum Stage {
    /// No line yet: the next is a surplus.
    First,
    /// A surplus and items: the next is an item or the level.
    Items(Shared),
    /// A level after them: the next is the set.
    Level(Levelled),
    /// A whole file: the next is an empty line.
    Whole(Filled),
}

// Parses the line of the surplus.
fn take_surplus(alloc: Global, line: &[u8]) -> Option<Stage>
    ensures { Takes stage.First line.now result }
{
    match surplus_of(line) {
        Some(surplus) => Some(Stage::Items(Shared {
            surplus,
            items: Vec::new(alloc),
        })),
        None => None,
    }
}

// Parses the line of the level.
fn take_level(shared: Shared, line: &[u8]) -> Option<Stage>
    requires few { length shared.items.items ≤ MAX_ITEMS }
    requires no_item { length shared.items.items < MAX_ITEMS → item_on_line line.now ≡ None }
    ensures { Takes (stage.Items shared) line.now result }
{
    match level_on_line(line) {
        Some(level) => Some(Stage::Level(Levelled { shared, level })),
        None => None,
    }
}

// Parses the line of an item, if there may be more of them, or of the level.
fn take_item(shared: Shared, line: &[u8]) -> Result<Option<Stage>, AllocError>
    requires { length shared.items.items ≤ MAX_ITEMS }
    ensures { IfOk result (Takes (stage.Items shared) line.now) }
{
    if shared.items.len() < MAX_ITEMS {
        if let Some(item) = item_on_line(line) {
            let mut items = shared.items;
            items.push(item)?;
            return Ok(Some(Stage::Items(Shared {
                surplus: shared.surplus,
                items,
            })));
        }
    }
    Ok(take_level(shared, line))
}

// Parses the line of the set.
fn take_set(alloc: Global, levelled: Levelled, line: &[u8]) -> Result<Option<Stage>, AllocError>
    ensures { IfOk result (Takes (stage.Level levelled) line.now) }
{
    let count = levelled.shared.items.len();
    let Some(saturated) = flags_of(alloc, count, line)? else {
        return Ok(None);
    };
    let cert = ClassCert {
        level: levelled.level,
        saturated,
    };
    let file = CheckFile {
        surplus: levelled.shared.surplus,
        items: levelled.shared.items,
        cert,
    };
    Ok(Some(Stage::Whole(Filled {
        file,
        lines: count as u64 + 3,
    })))
}

// Accepts an empty line.
fn take_empty(filled: Filled, line: &[u8]) -> Option<Stage>
    requires { filled.lines < 2 ^ 64 - 1 }
    ensures { Takes (stage.Whole filled) line.now result }
{
    if line.is_empty() {
        Some(Stage::Whole(Filled {
            file: filled.file,
            lines: filled.lines + 1,
        }))
    } else {
        None
    }
}

impl Stage {
    /// Number of the next line, from 1.
    pub(crate) fn line(&self) -> u64
        requires { lines_before self.now < 2 ^ 64 - 1 }
        ensures { result ≡ lines_before self.now + 1 }
    {
        match self {
            Stage::First => 1,
            Stage::Items(shared) => shared.items.len() as u64 + 2,
            Stage::Level(levelled) => levelled.shared.items.len() as u64 + 3,
            Stage::Whole(filled) => filled.lines + 1,
        }
    }

    /// Parses the next line, given without line feed and carriage return; `None` if it does not fit.
    pub(crate) fn take(self, alloc: Global, line: &[u8]) -> Result<Option<Stage>, AllocError>
        requires few { IsFew self }
        requires lines { lines_before self < 2 ^ 64 - 1 }
        ensures { IfOk result (Takes self line.now) }
    {
        match self {
            Stage::First => Ok(take_surplus(alloc, line)),
            Stage::Items(shared) => take_item(shared, line),
            Stage::Level(levelled) => take_set(alloc, levelled, line),
            Stage::Whole(filled) => Ok(take_empty(filled, line)),
        }
    }

    /// Returns the result of a file that ends here.
    pub(crate) fn end(self) -> Parsed
        requires few { IsFew self }
        requires lines { lines_before self < 2 ^ 64 - 1 }
        ensures { goes_on self [] ≡ said result }
    {
        match self {
            Stage::First => Parsed::Syntax(1),
            Stage::Items(shared) => Parsed::Syntax(shared.items.len() as u64 + 2),
            Stage::Level(levelled) => Parsed::Syntax(levelled.shared.items.len() as u64 + 3),
            Stage::Whole(filled) => Parsed::File(filled.file),
        }
    }
}
