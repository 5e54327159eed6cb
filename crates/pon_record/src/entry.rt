//! Reads entries: an event and its reply.

ghost use Rattle.pon_record.specs.Reading.{ReadsValue};
ghost use Rattle.pon_record.specs.Chapters.{entry, reply_to};

use crate::cursor::Cursor;
use crate::events::read_event;
use crate::fault::Stop;
use crate::layout::Layout;
use crate::lists::Recorded;
use pon_admit::Event;
use pon_state::{Entry, MadeMap, Reply};
use std::alloc::Global;

// Reads the reply to an event.
fn read_reply(
    alloc: Global,
    cursor: &mut Cursor<'_>,
    layout: Layout,
    event: &Event,
) -> Result<Reply, Stop>
    ensures { ReadsValue (λ x. (x, cursor.new)) result ((reply_to event.now).read cursor.old) }
{
    match event {
        Event::MakeMap => Ok(Reply::Map(MadeMap::read(alloc, cursor, layout)?)),
        _ => Ok(Reply::Taken),
    }
}

impl Recorded for Entry {
    ghost form = { λ l. entry };

    fn read(alloc: Global, cursor: &mut Cursor<'_>, layout: Layout) -> Result<Self, Stop> {
        let event = read_event(cursor)?;
        let reply = read_reply(alloc, cursor, layout, &event)?;
        Ok(Entry::new(event, reply))
    }
}
