//! The text that one line gives at a desk.

ghost use Rattle.std.specs.Prelude.{◌≡◌, ◌<◌, ◌++◌, IfOk, OnOk, OnErr};
ghost use Rattle.pon_history.specs.Chapters.{Chapter, IsLawfulChapter, present_state};
ghost use Rattle.pon_line.specs.Reading.{AsksWithin};
ghost use Rattle.pon_desk.specs.Views.{view_of};
ghost use Rattle.pon_why.specs.RowViews.{row_views};
ghost use Rattle.pon_why.specs.Lasts.{why_of};
ghost use Rattle.pon_manage.specs.Desks.{AddsText, DeskAnswers, ShowsCert, ShowsRows, ShowsState, ShowsSure, ShowsWhy, shown_in};
ghost use Rattle.pon_manage.specs.Sures.{sure_in};
ghost use Rattle.pon_manage.specs.Text.{cert_line};

use crate::help::{append_run_help, append_stop};
use crate::list::append_rows;
use crate::show::{Shown, append_shown};
use crate::sure::{append_sure, sure_in};
use crate::texts::{append_cert, append_refusal, append_reply};
use crate::why::append_why;
use pon_descr::Refusal;
use pon_desk::{Desk, PortView, Seat, StepFault};
use pon_line::{LineFault, Reading};
use pon_port::{Event, Port};
use pon_sure::Sure;
use pon_units::{AllocId, MAX_PORTS, PortNo};
use pon_why::{ChapterCopy, LastWhy, RowView, copy_chapter, explain_last, row_views};
use std::alloc::{AllocError, Global};
use std::sync::Wait;
use std::sync::ledger::Ledger;

// Appends the certificate of the last map, or `NoMap`.
fn show_cert(view: &PortView, replies: &mut Vec<u8>) -> Result<(), AllocError>
    ensures ok { OnOk result (replies.new.items ≡ replies.old.items ++ cert_line view.now.last) }
    ensures err { OnErr result (replies.new.items ≡ replies.old.items) }
{
    match &view.last {
        None => append_refusal(replies, LineFault::NoMap),
        Some(last) => append_cert(replies, last.made(), last.non_assured(), last.best_effort()),
    }
}

// Returns what is shown of a view.
fn shown_in(view: &PortView) -> Shown
    ensures { result ≡ shown_in view.now }
{
    Shown {
        cause: view.cause,
        next: view.next,
        allocs: view.allocs,
        onus: view.onus,
        guaranteed: view.guaranteed,
        capacity: view.capacity,
    }
}

// Returns the number of the port at an index.
fn port_no<L: Ledger, M: Ledger>(desk: &Desk<L, M>, place: usize) -> PortNo
    requires { place < desk.now.ports }
    ensures { result ≡ place }
{
    prove!(desk.ports() <= MAX_PORTS);
    PortNo::at(place)
}

/// What answers lines at a desk, with a buffer for the bytes of a map.
#[derive(Drop)]
pub(crate) struct AtDesk<'a, L: Ledger, M: Ledger, H: Wait> {
    pub(crate) rt: &'a H,
    pub(crate) desk: &'a Desk<L, M>,
    pub(crate) room: Vec<u8>,
}

impl<'a, L: Ledger, M: Ledger, H: Wait> AtDesk<'a, L, M, H> {
    // Posts an event, appends its reply or its refusal, and has the seat keep its receipt.
    fn answer_event(
        &mut self,
        seat: &mut Seat<L, M>,
        port: PortNo,
        event: Event,
        replies: &mut Vec<u8>,
    ) -> Result<(), AllocError>
        requires { port < self.old.desk.now.ports }
        ensures ok { OnOk result (AddsText (λ text. DeskAnswers seat.old (Reading.Asks port event) text
            seat.new) replies.old.items replies.new.items) }
        ensures err { OnErr result (replies.new.items ≡ replies.old.items) }
    {
        match self.desk.post(self.rt, seat, port, event) {
            Ok(receipt) => {
                let room = &mut self.room;
                let appended = append_reply(replies, room, receipt.index(), receipt.entry());
                seat.keep(receipt);
                appended
            }
            Err(StepFault::Refused(refusal)) => match refusal {
                Refusal::OutOfMemory => Err(AllocError),
                told => append_refusal(replies, LineFault::Port(told)),
            },
            Err(StepFault::NoSuchPort) => append_refusal(replies, LineFault::NoSuchPort),
        }
    }

    // Returns the view of a port at some moment. `Err` only if memory is refused.
    fn view_at(&self, alloc: Global, place: usize) -> Result<PortView, AllocError>
        requires { place < self.now.desk.now.ports }
        ensures { IfOk result (λ view. (at : Chapter) × IsLawfulChapter at × (view ≡ view_of at)) }
    {
        match self.desk.look(self.rt, alloc, port_no(self.desk, place)) {
            Ok(view) => Ok(view),
            Err(_) => Err(AllocError),
        }
    }

    // Copies what is shown of each Alloc-ID of a port at some moment, under its lock. `Err` only if memory is refused.
    fn rows_at(&self, alloc: Global, place: usize) -> Result<Vec<RowView>, AllocError>
        requires { place < self.now.desk.now.ports }
        ensures { IfOk result (λ views. (at : Chapter) × IsLawfulChapter at
            × (views.items ≡ row_views (present_state at))) }
    {
        let port = port_no(self.desk, place);
        let copied = self.desk.inspect(
            self.rt,
            port,
            |port: &Port| -> Result<Vec<RowView>, AllocError>
                ensures { IfOk result (λ views. views.items ≡ row_views (present_state port.now)) }
            { row_views(alloc, port.state()) },
        );
        copied.unwrap()
    }

    // Copies the kept chapter of a port at some moment, under its lock. `Err` only if memory is refused.
    fn chapter_at(&self, alloc: Global, place: usize) -> Result<ChapterCopy, AllocError>
        requires { place < self.now.desk.now.ports }
        ensures { IfOk result (λ copy. (at : Chapter) × IsLawfulChapter at
            × ((copy.opening ≡ at.opening) × (copy.entries.items ≡ at.entries))) }
    {
        let port = port_no(self.desk, place);
        let copied = self.desk.inspect(
            self.rt,
            port,
            |port: &Port| -> Result<ChapterCopy, AllocError>
                ensures { IfOk result (λ copy. (copy.opening ≡ port.now.opening)
                    × (copy.entries.items ≡ port.now.entries)) }
            { copy_chapter(alloc, port.opening(), port.history()) },
        );
        copied.unwrap()
    }

    // Explains the last map of a port at some moment for an Alloc-ID. The chapter is copied under the lock of the port, and
    // taken again without it. `Err` only if memory is refused.
    fn why_at(&self, alloc: Global, place: usize, alloc_id: AllocId) -> Result<LastWhy, AllocError>
        requires { place < self.now.desk.now.ports }
        ensures { IfOk result (λ why. (at : Chapter) × IsLawfulChapter at
            × (why ≡ why_of at.opening at.entries alloc_id)) }
    {
        let copy = self.chapter_at(alloc, place)?;
        explain_last(alloc, &copy.opening, &copy.entries, alloc_id)
    }

    // Copies what is sure for an Alloc-ID of a port at some moment, under its lock.
    fn sure_at(&self, place: usize, alloc_id: AllocId) -> Option<Sure>
        requires { place < self.now.desk.now.ports }
        ensures { (at : Chapter) × IsLawfulChapter at
            × (result ≡ sure_in (present_state at) alloc_id) }
    {
        let port = port_no(self.desk, place);
        let copied = self.desk.inspect(
            self.rt,
            port,
            |port: &Port| -> Option<Sure>
                ensures { result ≡ sure_in (present_state port.now) alloc_id }
            { sure_in(port.state(), alloc_id) },
        );
        copied.unwrap()
    }

    // Appends the certificate of the last map of a port at some moment, or that it has none.
    fn answer_cert(&self, place: usize, replies: &mut Vec<u8>) -> Result<(), AllocError>
        requires { place < self.now.desk.now.ports }
        ensures ok { OnOk result (AddsText ShowsCert replies.old.items replies.new.items) }
        ensures err { OnErr result (replies.new.items ≡ replies.old.items) }
    {
        let view = self.view_at(*replies.allocator(), place)?;
        show_cert(&view, replies)
    }

    // Appends the state of a port at some moment.
    fn answer_state(&self, place: usize, replies: &mut Vec<u8>) -> Result<(), AllocError>
        requires { place < self.now.desk.now.ports }
        ensures ok { OnOk result (AddsText ShowsState replies.old.items replies.new.items) }
        ensures err { OnErr result (replies.new.items ≡ replies.old.items) }
    {
        let view = self.view_at(*replies.allocator(), place)?;
        append_shown(replies, &shown_in(&view))
    }

    // Appends the list of the Alloc-IDs of a port at some moment.
    fn answer_rows(&self, place: usize, replies: &mut Vec<u8>) -> Result<(), AllocError>
        requires { place < self.now.desk.now.ports }
        ensures ok { OnOk result (AddsText ShowsRows replies.old.items replies.new.items) }
        ensures err { OnErr result (replies.new.items ≡ replies.old.items) }
    {
        let views = self.rows_at(*replies.allocator(), place)?;
        append_rows(replies, &views)
    }

    // Appends why the last map of a port at some moment gives an Alloc-ID its words.
    fn answer_why(
        &self,
        place: usize,
        alloc_id: AllocId,
        replies: &mut Vec<u8>,
    ) -> Result<(), AllocError>
        requires { place < self.now.desk.now.ports }
        ensures ok { OnOk result (AddsText (ShowsWhy alloc_id) replies.old.items replies.new.items) }
        ensures err { OnErr result (replies.new.items ≡ replies.old.items) }
    {
        let why = self.why_at(*replies.allocator(), place, alloc_id)?;
        append_why(replies, &why)
    }

    // Appends what is sure for an Alloc-ID of a port at some moment.
    fn answer_sure(
        &self,
        place: usize,
        alloc_id: AllocId,
        replies: &mut Vec<u8>,
    ) -> Result<(), AllocError>
        requires { place < self.now.desk.now.ports }
        ensures ok { OnOk result (AddsText (ShowsSure alloc_id) replies.old.items replies.new.items) }
        ensures err { OnErr result (replies.new.items ≡ replies.old.items) }
    {
        append_sure(replies, alloc_id, &self.sure_at(place, alloc_id))
    }

    /// Appends the text of a reading: an event is posted, and what is shown is copied, each under the lock of its port
    /// only. `Err` only if memory is refused; then the replies are unchanged.
    pub(crate) fn answer(
        &mut self,
        seat: &mut Seat<L, M>,
        reading: Reading,
        replies: &mut Vec<u8>,
    ) -> Result<(), AllocError>
        requires { AsksWithin self.old.desk.now.ports reading }
        ensures ok { OnOk result (AddsText (λ text. DeskAnswers seat.old reading text seat.new)
            replies.old.items replies.new.items) }
        ensures err { OnErr result (replies.new.items ≡ replies.old.items) }
    {
        match reading {
            Reading::Nothing => Ok(()),
            Reading::Refused(refusal) => append_refusal(replies, refusal.fault),
            Reading::Asks { port, event } => {
                let port = port_no(self.desk, port);
                self.answer_event(seat, port, event, replies)
            }
            Reading::AsksCert { port } => self.answer_cert(port, replies),
            Reading::AsksState { port } => self.answer_state(port, replies),
            Reading::AsksRows { port } => self.answer_rows(port, replies),
            Reading::AsksHelp { port: _ } => append_run_help(replies),
            Reading::AsksStop { port: _ } => append_stop(replies),
            Reading::AsksWhy { port, alloc_id } => self.answer_why(port, alloc_id, replies),
            Reading::AsksSure { port, alloc_id } => self.answer_sure(port, alloc_id, replies),
        }
    }
}
