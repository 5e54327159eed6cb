ghost use Rattle.std.specs.Prelude.{◌≡◌, ◌<◌, ◌⊎◌, length, IfOk, IfErr, OnOk, OnErr};
ghost use Rattle.pon_descr.specs.Checks.{IsTold};
ghost use Rattle.pon_history.specs.Chapters.{IsLawfulChapter};
ghost use Rattle.pon_history.specs.Taking.{Turns, refusal_of, turn_refusal};
ghost use Rattle.pon_desk.specs.Counts.{one_more_at};
ghost use Rattle.pon_desk.specs.Posts.{IsPosted, NamesPost};

use crate::books::Books;
use crate::receipt::{Receipt, take};
use crate::seat::{Seat, count_at};
use pon_admit::Event;
use pon_descr::Refusal;
use pon_port::{Chapter, Port};
use pon_units::PortNo;
use std::marker::Model;
use std::sync::ledger::{Ledger, Share};
use std::sync::{Mutex, Wait};

/// A port under its lock, with a share of the ports' ledger whose amount is the number of entries that the port took.
///
/// Contracts see the chapter that the port keeps.
#[derive(Drop)]
pub struct Held<L: Ledger> {
    pub(crate) port: Port,
    pub(crate) share: Share<L>,
}

impl<L: Ledger> Model for Held<L> {
    ghost use Rattle.std.specs.Prelude.{◌≡◌};
    ghost use Rattle.pon_history.specs.Chapters.{Chapter};
    ghost use Rattle.pon_desk.specs.Counts.{taken_of};

    ghost Value = { Chapter };

    ghost view = { λ h. h.port };

    ghost invariant = { λ h. (h.share.parts ≡ 1) × (h.share.amount ≡ taken_of h.port) };
}

impl<L: Ledger> Held<L> {
    /// Returns the port.
    pub fn port(&self) -> &Port
        ensures value { result.now ≡ self.now }
        ensures lawful { IsLawfulChapter self.now }
    {
        let _entries = self.port.history();
        &self.port
    }

    /// Posts an event at this port, and counts the post at the port and at the seat. The seat must count a port of this
    /// number.
    ///
    /// # Errors
    ///
    /// `ChapterFull` first if the number of entries of all ports of the desk is at its maximum (2^64 - 1); otherwise
    /// the first refusal of the port; `OutOfMemory` only if no other applies. A refusal changes neither the port nor
    /// the seat.
    pub fn post<M: Ledger, R: Wait>(
        &mut self,
        rt: &R,
        books: &Mutex<Books<L, M>>,
        seat: &mut Seat<L, M>,
        port: PortNo,
        event: Event,
    ) -> Result<Receipt, Refusal>
        requires { port < length seat.old.counts }
        ensures ok { IfOk result (λ receipt. IsPosted self.old event receipt.placed self.new) }
        ensures names { IfOk result (λ receipt. NamesPost port seat.old receipt) }
        ensures counted { OnOk result (seat.new ≡ one_more_at port seat.old) }
        ensures refused { IfErr result (λ told.
            IsTold (refusal_of self.old event) told ⊎ (told ≡ Refusal.ChapterFull)) }
        ensures err { OnErr result ((self.new ≡ self.old) × (seat.new ≡ seat.old)) }
    {
        let Held { port: at, share } = self;
        let Seat {
            number,
            counts,
            kept: _,
            share: mine,
            of: _,
        } = seat;
        if !books.lock(rt).count(share, mine) {
            return Err(Refusal::ChapterFull);
        }
        match take(at, event) {
            Ok(placed) => {
                let nth = count_at(counts, port);
                Ok(Receipt {
                    port,
                    placed,
                    seat: *number,
                    nth,
                })
            }
            Err(refusal) => {
                books.lock(rt).uncount(share, mine);
                Err(refusal)
            }
        }
    }

    /// Turns the port, as [`Port::turn`] does: returns the kept chapter, and begins the next one in the same state. The
    /// number of entries that the port took is unchanged, and so is its share.
    ///
    /// # Errors
    ///
    /// As for [`Port::turn`].
    pub fn turn(&mut self) -> Result<Chapter, Refusal>
        ensures ok { IfOk result (λ chapter. Turns self.old chapter self.new) }
        ensures refused { IfErr result (λ told. IsTold (turn_refusal self.old) told) }
        ensures err { OnErr result (self.new ≡ self.old) }
    {
        self.port.turn()
    }
}
