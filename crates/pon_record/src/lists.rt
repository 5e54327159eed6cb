//! Lists of values of any one format.

ghost use Rattle.std.specs.Int.{w8, w16, w32};
ghost use Rattle.pon_record.specs.declared.layout.Layout.{Layout};
ghost use Rattle.pon_record.specs.Format.{Format, counted, number, read_times};
ghost use Rattle.pon_record.specs.Reading.{ReadsValue};

use crate::cursor::Cursor;
use crate::fault::Stop;
use crate::layout::Layout;
use std::alloc::Global;

/// A type of values in a recording.
pub(crate) trait Recorded: Drop + Sized {
    /// The format of the type in a layout.
    ghost form: { Layout → Format Self };

    fn read(alloc: Global, cursor: &mut Cursor<'_>, layout: Layout) -> Result<Self, Stop>
        ensures { ReadsValue (λ x. (x, cursor.new)) result ((form layout).read cursor.old) };
}

/// Reads `count` values, one after another.
pub(crate) fn read_list<T: Recorded>(
    alloc: Global,
    cursor: &mut Cursor<'_>,
    layout: Layout,
    count: usize,
) -> Result<Vec<T>, Stop>
    ensures { ReadsValue (λ x. (x.items, cursor.new)) result
        (read_times (T.form layout) count cursor.old) }
{
    let mut values = Vec::new(alloc);
    for _ in 0..count {
        let value = T::read(alloc, cursor, layout)?;
        values.push(value)?;
    }
    Ok(values)
}

/// Reads a count of 1 byte, at most `most`, and this number of values.
pub(crate) fn read_few<T: Recorded>(
    alloc: Global,
    cursor: &mut Cursor<'_>,
    layout: Layout,
    most: u8,
) -> Result<Vec<T>, Stop>
    ensures { ReadsValue (λ x. (x.items, cursor.new)) result
        ((counted (number w8) most (T.form layout)).read cursor.old) }
{
    let count = cursor.count8(most)?;
    read_list(alloc, cursor, layout, count)
}

/// Reads a count of 2 bytes, at most `most`, and this number of values.
pub(crate) fn read_some<T: Recorded>(
    alloc: Global,
    cursor: &mut Cursor<'_>,
    layout: Layout,
    most: u16,
) -> Result<Vec<T>, Stop>
    ensures { ReadsValue (λ x. (x.items, cursor.new)) result
        ((counted (number w16) most (T.form layout)).read cursor.old) }
{
    let count = cursor.count16(most)?;
    read_list(alloc, cursor, layout, count)
}

/// Reads a count of 4 bytes, at most `most`, and this number of values.
pub(crate) fn read_many<T: Recorded>(
    alloc: Global,
    cursor: &mut Cursor<'_>,
    layout: Layout,
    most: u32,
) -> Result<Vec<T>, Stop>
    ensures { ReadsValue (λ x. (x.items, cursor.new)) result
        ((counted (number w32) most (T.form layout)).read cursor.old) }
{
    let count = cursor.count32(most)?;
    read_list(alloc, cursor, layout, count)
}
