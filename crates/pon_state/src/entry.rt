ghost use Rattle.std.specs.Prelude.{◌≡◌, ◌↔◌, IsTrue};
ghost use Rattle.pon_state.specs.Entries.{GetsReply, entry_in};
ghost use Rattle.pon_state.specs.Maps.{makes_map};

use crate::reply::{MadeMap, Reply};
use pon_admit::Event;
use std::marker::Model;

// What is kept of an entry: the event if its reply is `Taken`, or the map that `MakeMap` got.
#[derive(Debug, Drop)]
enum Kept {
    Taken(Event),
    Map(MadeMap),
}

/// An event that was taken, and its reply. It takes the memory of the event or of the map, not of both.
#[derive(Debug, Drop)]
pub struct Entry {
    kept: Kept,
}

impl Model for Entry {
    ghost use Rattle.pon_state.specs.Entry.{Entry};

    ghost Value = { Entry };

    ghost use Rattle.pon_state.specs.KeptEntries.{kept_as};

    ghost view = { λ e. kept_as e.kept };
}

/// An entry by reference.
#[derive(Clone, Copy)]
pub enum EntryRef<'a> {
    /// An event with the reply [`Reply::Taken`].
    Taken(&'a Event),
    /// The map that [`Event::MakeMap`] got.
    Map(&'a MadeMap),
}

impl Entry {
    /// Makes the entry of an event and its reply, which is a map only for `MakeMap`.
    pub fn new(event: Event, reply: Reply) -> Entry
        requires { GetsReply event reply }
        ensures { result ≡ record { event = event; reply = reply } }
    {
        let kept = match reply {
            Reply::Taken => Kept::Taken(event),
            Reply::Map(made) => Kept::Map(made),
        };
        Entry { kept }
    }

    /// Returns the event, or the map that it got.
    pub fn as_ref(&self) -> EntryRef<'_>
        ensures { entry_in result ≡ self.now }
    {
        match &self.kept {
            Kept::Taken(event) => EntryRef::Taken(event),
            Kept::Map(made) => EntryRef::Map(made),
        }
    }

    /// Returns the event. It allocates no memory.
    pub fn event(&self) -> Event
        ensures { result ≡ self.now.event }
    {
        match &self.kept {
            Kept::Taken(event) => event.copy(),
            Kept::Map(_) => Event::MakeMap,
        }
    }

    /// Returns whether the event is `MakeMap`.
    pub fn makes_map(&self) -> bool
        ensures { result ≡ makes_map self.now.event }
    {
        match &self.kept {
            Kept::Taken(event) => matches!(event, Event::MakeMap),
            Kept::Map(_) => true,
        }
    }

    /// Returns whether both entries have the same event and the same reply.
    pub fn is_same(&self, other: &Entry) -> bool
        ensures { IsTrue result ↔ (self.now ≡ other.now) }
    {
        match (&self.kept, &other.kept) {
            (Kept::Taken(event), Kept::Taken(other)) => event == other,
            (Kept::Map(made), Kept::Map(other)) => made == other,
            _ => false,
        }
    }
}
