ghost use Rattle.std.specs.Prelude.{◌≡◌, IfOk, IfErr, OnErr};
ghost use Rattle.pon_descr.specs.Checks.{IsTold};
ghost use Rattle.pon_history.specs.Taking.{refusal_of};
ghost use Rattle.pon_desk.specs.Posts.{IsPosted};

use pon_admit::Event;
use pon_descr::Refusal;
use pon_port::{Entry, Port};
use pon_units::PortNo;
use std::marker::Model;

/// An entry of a port with its place: the number of its chapter, and its index in that chapter, from 0.
#[derive(Debug, Drop)]
pub(crate) struct Placed {
    pub(crate) chapter: u64,
    pub(crate) index: usize,
    pub(crate) entry: Entry,
}

/// The receipt of a post: its port, the entry that the port kept for it with the place of that entry, the number of the
/// seat that made the post, and the number of posts that this seat had made at the port before.
///
/// Only [`Held::post`](crate::Held::post) makes a receipt.
#[derive(Debug, Drop)]
pub struct Receipt {
    pub(crate) port: PortNo,
    pub(crate) placed: Placed,
    pub(crate) seat: usize,
    pub(crate) nth: u64,
}

impl Model for Receipt {
    ghost use Rattle.pon_desk.specs.Receipts.{Receipt};

    ghost Value = { Receipt };

    ghost view = { λ r. record {
      port = r.port;
      placed = r.placed;
      seat = r.seat;
      nth = r.nth;
    } };
}

impl Receipt {
    ghost use Rattle.std.specs.Prelude.{◌≡◌};

    /// Port of the post.
    pub fn port(&self) -> PortNo
        ensures { result ≡ self.now.port }
    {
        self.port
    }

    /// Number of the chapter that the port kept, from 0 for each port.
    pub fn chapter(&self) -> u64
        ensures { result ≡ self.now.placed.chapter }
    {
        self.placed.chapter
    }

    /// Index of the entry in that chapter, from 0.
    pub fn index(&self) -> usize
        ensures { result ≡ self.now.placed.index }
    {
        self.placed.index
    }

    /// Entry that the port kept: the event that was posted, and the reply of the port.
    pub fn entry(&self) -> &Entry
        ensures { result.now ≡ self.now.placed.entry }
    {
        &self.placed.entry
    }

    /// Number of the seat that made the post.
    pub fn seat(&self) -> usize
        ensures { result ≡ self.now.seat }
    {
        self.seat
    }

    /// Number of posts that the seat had made at the port before.
    pub fn nth(&self) -> u64
        ensures { result ≡ self.now.nth }
    {
        self.nth
    }
}

// Applies the event to the port, and returns the entry with its place, or the first refusal.
pub(crate) fn take(port: &mut Port, event: Event) -> Result<Placed, Refusal>
    ensures ok { IfOk result (λ placed. IsPosted port.old event placed port.new) }
    ensures refused { IfErr result (λ told. IsTold (refusal_of port.old event) told) }
    ensures err { OnErr result (port.new ≡ port.old) }
{
    let chapter = port.chapter_number();
    let index = port.history().len();
    let kept = event.copy();
    let reply = port.take(event)?;
    let entry = Entry::new(kept, reply);
    Ok(Placed {
        chapter,
        index,
        entry,
    })
}
