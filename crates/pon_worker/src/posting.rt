// The posts of a worker, and their effect on its seat and its sink.
ghost use Rattle.std.specs.Prelude.{◌≡◌, ◌+◌, ◌<◌, ◌≤◌, ◌^◌, ◌⊎◌, ◌↔◌, length, slice_index, IfOk, IfErr, OnOk, OnErr};
ghost use Rattle.pon_desk.specs.Counts.{one_more_at};
ghost use Rattle.pon_desk.specs.Faults.{IsNoSuchPort, TellsRefusal};
ghost use Rattle.pon_desk.specs.Posts.{IsSomePost, NamesPost};
ghost use Rattle.pon_ring.specs.Discarded.{Frees};
ghost use Rattle.pon_worker.specs.Passing.{PassesChapters, TriesTurn, TurnsAtPost};
ghost use Rattle.pon_worker.specs.Turns.{IsPostAt, KeepsPost, RaisedAt};

use crate::gate::Gate;
use pon_admit::Event;
use pon_descr::Refusal;
use pon_desk::{Desk, Receipt, Seat, StepFault};
use pon_port::{EntryRef, MadeMap, Reply};
use pon_ring::Sink;
use pon_units::PortNo;
use std::sync::Wait;
use std::sync::ledger::Ledger;

/// A port that a worker serves: the desk with its number there, the gate, and the handle that waits for the desk's locks.
#[derive(Drop)]
pub(crate) struct ServedPort<'a, L: Ledger, M: Ledger, G: Gate, T: Wait> {
    pub(crate) rt: &'a T,
    pub(crate) desk: &'a Desk<L, M>,
    pub(crate) port: PortNo,
    pub(crate) gate: &'a G,
}

impl<'a, L: Ledger, M: Ledger, G: Gate, T: Wait> ServedPort<'a, L, M, G, T> {
    pub(crate) fn new(rt: &'a T, desk: &'a Desk<L, M>, port: PortNo, gate: &'a G) -> Self
        ensures desk { result.desk.now ≡ desk.now }
        ensures port { result.port ≡ port }
    {
        ServedPort {
            rt,
            desk,
            port,
            gate,
        }
    }

    // Returns the number of posts that a seat counts at the port.
    fn posts_of(&self, seat: &Seat<L, M>) -> u64
        requires { self.now.port < self.now.desk.now.ports }
        ensures value { result ≡ slice_index seat.now.counts self.now.port }
        ensures size { length seat.now.counts ≡ self.now.desk.now.ports }
    {
        prove!(self.desk.ports() == seat.counts().len());
        seat.counts()[usize::from(self.port.get())]
    }

    // Turns the port, and passes its chapter to the sink. If the port refuses, nothing happens.
    pub(crate) fn turn_port(&self, sink: &mut Sink)
        requires { self.now.port < self.now.desk.now.ports }
        ensures turned { TriesTurn sink.old.outlet sink.new.outlet }
        ensures cut { sink.new.cut ≡ sink.old.cut }
        ensures sink { PassesChapters sink.old sink.new }
    {
        match self.desk.turn(self.rt, self.port) {
            Ok(chapter) => sink.pass(chapter),
            Err(_) => {}
        }
    }

    // Posts an event. If the chapter of the port is full, turns the port, and posts the event once more.
    fn post_or_turn(
        &self,
        seat: &mut Seat<L, M>,
        sink: &mut Sink,
        event: Event,
    ) -> Result<Receipt, StepFault>
        ensures no_such { IsNoSuchPort result ↔ self.now.desk.now.ports ≤ self.now.port }
        ensures posted { IfOk result (λ receipt. IsSomePost event receipt) }
        ensures names { IfOk result (λ receipt. NamesPost self.now.port seat.old receipt) }
        ensures refused { IfErr result (λ fault. TellsRefusal event fault) }
        ensures counted { OnOk result (seat.new ≡ one_more_at self.now.port seat.old) }
        ensures err { OnErr result (seat.new ≡ seat.old) }
        ensures turned { (sink.new.outlet ≡ sink.old.outlet) ⊎ TriesTurn sink.old.outlet sink.new.outlet }
        ensures cut { sink.new.cut ≡ sink.old.cut }
        ensures sink { PassesChapters sink.old sink.new }
    {
        let again = event.copy();
        match self.desk.post(self.rt, seat, self.port, event) {
            Err(StepFault::Refused(Refusal::ChapterFull)) => {
                self.turn_port(sink);
                self.desk.post(self.rt, seat, self.port, again)
            }
            first => first,
        }
    }

    // After a post that was kept with this index, frees some entries of a dropped chapter, and turns the port if the sink
    // wants it.
    fn turn_at_cut(&self, sink: &mut Sink, index: usize)
        requires { self.now.port < self.now.desk.now.ports }
        ensures at_cut { sink.old.cut ≤ index + 1 → TriesTurn sink.old.outlet sink.new.outlet }
        ensures below_cut { index + 1 < sink.old.cut → sink.new.outlet ≡ sink.old.outlet }
        ensures frees { index + 1 < sink.old.cut → Frees sink.old sink.new }
        ensures cut { sink.new.cut ≡ sink.old.cut }
        ensures sink { PassesChapters sink.old sink.new }
    {
        sink.free_some();
        if sink.wants_turn(index) {
            self.turn_port(sink);
        }
    }

    // Posts an event, and turns the port before if its chapter is full, and after if the sink wants it.
    fn post(
        &self,
        seat: &mut Seat<L, M>,
        sink: &mut Sink,
        event: Event,
    ) -> Result<Receipt, StepFault>
        ensures no_such { IsNoSuchPort result ↔ self.now.desk.now.ports ≤ self.now.port }
        ensures posted { IfOk result (λ receipt. IsPostAt self.now.port event receipt) }
        ensures refused { IfErr result (λ fault. TellsRefusal event fault) }
        ensures counted { OnOk result (RaisedAt self.now.port 1 seat.old seat.new) }
        ensures receipts { OnOk result (seat.new.receipts ≡ seat.old.receipts) }
        ensures fits { OnOk result (slice_index seat.new.counts self.now.port < 2 ^ 64) }
        ensures err { OnErr result (seat.new ≡ seat.old) }
        ensures turns { IfOk result (λ receipt. TurnsAtPost sink.old receipt.placed.index sink.new) }
        ensures sink { PassesChapters sink.old sink.new }
    {
        let receipt = self.post_or_turn(seat, sink, event)?;
        self.turn_at_cut(sink, receipt.index());
        let _posts = self.posts_of(seat);
        Ok(receipt)
    }

    // Posts an event, and has the seat keep its receipt.
    pub(crate) fn post_kept(
        &self,
        seat: &mut Seat<L, M>,
        sink: &mut Sink,
        event: Event,
    ) -> Result<(), StepFault>
        ensures no_such { IsNoSuchPort result ↔ self.now.desk.now.ports ≤ self.now.port }
        ensures kept { OnOk result (KeepsPost self.now.port event seat.old seat.new) }
        ensures fits { OnOk result (slice_index seat.new.counts self.now.port < 2 ^ 64) }
        ensures refused { IfErr result (λ fault. TellsRefusal event fault) }
        ensures err { OnErr result (seat.new ≡ seat.old) }
        ensures sink { PassesChapters sink.old sink.new }
    {
        let receipt = self.post(seat, sink, event)?;
        seat.keep(receipt);
        Ok(())
    }

    // Posts `MakeMap`, and returns the receipt of the map of the next frame.
    pub(crate) fn make_map(
        &self,
        seat: &mut Seat<L, M>,
        sink: &mut Sink,
    ) -> Result<Receipt, StepFault>
        ensures no_such { IsNoSuchPort result ↔ self.now.desk.now.ports ≤ self.now.port }
        ensures made { IfOk result (λ receipt. IsPostAt self.now.port Event.MakeMap receipt) }
        ensures refused { IfErr result (λ fault. TellsRefusal Event.MakeMap fault) }
        ensures counted { OnOk result (RaisedAt self.now.port 1 seat.old seat.new) }
        ensures receipts { OnOk result (seat.new.receipts ≡ seat.old.receipts) }
        ensures fits { OnOk result (slice_index seat.new.counts self.now.port < 2 ^ 64) }
        ensures err { OnErr result (seat.new ≡ seat.old) }
        ensures sink { PassesChapters sink.old sink.new }
    {
        self.post(seat, sink, Event::MakeMap)
    }
}

// Returns the map that was made for a post.
pub(crate) fn made_map(receipt: &Receipt) -> &MadeMap
    requires { IsSomePost Event.MakeMap receipt.now }
    ensures { receipt.now.placed.entry.reply ≡ Reply.Map result.now }
{
    match receipt.entry().as_ref() {
        EntryRef::Map(made) => made,
        EntryRef::Taken(_) => unreachable!(),
    }
}
