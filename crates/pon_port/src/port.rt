ghost use Rattle.std.specs.Prelude.{◌≡◌, IfOk};
ghost use Rattle.pon_state.specs.State.{just_opened};
ghost use Rattle.pon_state.specs.Events.{IsEvent};
ghost use Rattle.pon_state.specs.Maps.{makes_map};

use crate::next_map::{ReadyMap, next_map};
use crate::ranges::is_in_range;
use crate::resume_fault::ResumeFault;
use pon_admit::{Event, PortCfg};
use pon_demand::MapBuffers;
use pon_descr::Refusal;
use pon_history::Chapter;
use pon_state::{Entry, EntryRef, MadeMap, PortState, Reply, add_map, check, prove_in_range, step};
use pon_units::{AllocId, FrameNo};
use std::alloc::{AllocError, Global};
use std::marker::Model;
use std::mem;

/// A port: the kept chapter of its history, and the state after that chapter.
///
/// In contracts a port is that chapter: its number, its opening and its entries. By an invariant of the type the
/// chapter is lawful and the state is its replay.
#[derive(Drop)]
pub struct Port {
    number: u64,
    opening: PortState,
    state: PortState,
    entries: Vec<Entry>,
    // The index of the last map's entry, and the Alloc-IDs of the two classes that shared surplus in it.
    last: Option<usize>,
    na: Vec<AllocId>,
    be: Vec<AllocId>,
    room: MapBuffers,
}

impl Model for Port {
    ghost use Rattle.pon_history.specs.Chapters.{Chapter};
    ghost use Rattle.pon_port.specs.Ports.{IsPort};

    ghost Value = { Chapter };

    ghost view = { λ p. record {
      number = p.number;
      opening = p.opening;
      entries = p.entries.items;
    } };

    ghost invariant = { λ p. IsPort
        (record { number = p.number; opening = p.opening; entries = p.entries.items })
        p.state p.last p.na.items p.be.items };
}

impl Port {
    ghost use Rattle.std.specs.Prelude.{[], ◌↔◌, ◌+◌, Err, false, length, IfOk, IfErr, IfSome, MatchOption, None, OnOk, OnErr, Some};
    ghost use Rattle.pon_admit.specs.Roster.{IsAdmitted};
    ghost use Rattle.pon_history.specs.Chapters.{IsLawfulChapter, IsLawfulOpening, present_state};
    ghost use Rattle.pon_history.specs.Last.{MatchesMembers, last_map};
    ghost use Rattle.pon_state.specs.Ranges.{IsStateInRange};
    ghost use Rattle.pon_history.specs.Taking.{Keeps, Takes, Turns, refusal_of, turn_refusal};
    ghost use Rattle.pon_port.specs.Ports.{IsReady};
    ghost use Rattle.pon_history.specs.FairMaps.{IsFairMap, TellsFairMap};
    ghost use Rattle.pon_history.specs.WordRuns.{RunsAreWhole};
    ghost use Rattle.pon_demand.specs.Carries.{AreCarries};
    ghost use Rattle.pon_descr.specs.Checks.{IsTold};
    ghost use Rattle.pon_port.specs.declared.resume_fault.ResumeFault.TheVariants.{OutOfRange};

    /// Opens a port: no Alloc-ID, the line up, and `first` as its next frame.
    ///
    /// # Errors
    ///
    /// `AllocError` only if memory is refused.
    pub fn open(alloc: Global, cfg: PortCfg, first: FrameNo) -> Result<Port, AllocError>
        ensures opening { IfOk result (λ port. port.opening
            ≡ just_opened cfg.gap cfg.profile first) }
        ensures entries { IfOk result (λ port. port.entries ≡ []) }
        ensures number { IfOk result (λ port. port.number ≡ 0) }
    {
        Ok(Port {
            number: 0,
            opening: PortState::open(alloc, &cfg, first)?,
            state: PortState::open(alloc, &cfg, first)?,
            entries: Vec::new(alloc),
            last: None,
            na: Vec::new(alloc),
            be: Vec::new(alloc),
            room: MapBuffers::open(alloc),
        })
    }

    /// Opens a port that goes on in the state of another one: its kept chapter has this number and no entries, and opens
    /// with that state. A state is lawful if an audit shows that it is, as the end of a good chapter.
    ///
    /// # Errors
    ///
    /// `OutOfRange` exactly when the state is none of a port of this version. `Memory` only if memory is refused.
    pub fn resume(alloc: Global, number: u64, opening: PortState) -> Result<Port, ResumeFault>
        requires { IsLawfulOpening number opening }
        ensures ok { IfOk result (λ port. port
            ≡ record { number = number; opening = opening; entries = [] }) }
        ensures out_of_range { (result ≡ Err OutOfRange) ↔ (IsStateInRange opening → ⊥) }
    {
        if !is_in_range(&opening) {
            return Err(ResumeFault::OutOfRange);
        }
        let state = opening.try_copy(alloc)?;
        Ok(Port {
            number,
            opening,
            state,
            entries: Vec::new(alloc),
            last: None,
            na: Vec::new(alloc),
            be: Vec::new(alloc),
            room: MapBuffers::open(alloc),
        })
    }

    /// The number of the kept chapter. The chapters of a port are counted from 0; chapter 0 begins when the port is
    /// opened, and a port that is resumed begins with the number that it is given.
    pub fn chapter_number(&self) -> u64
        ensures { result ≡ self.now.number }
    {
        self.number
    }

    /// The kept entries, oldest first.
    pub fn history(&self) -> &[Entry]
        ensures entries { result.now ≡ self.now.entries }
        ensures lawful { IsLawfulChapter self.now }
        ensures runs { RunsAreWhole self.now }
    {
        self.entries.as_slice()
    }

    /// The number of entries taken since the port was opened, those before it was resumed included.
    pub fn taken(&self) -> u64
        ensures { result ≡ self.now.opening.taken_before + length self.now.entries }
    {
        self.state.taken_before()
    }

    /// The state that the kept chapter opens with.
    pub fn opening(&self) -> &PortState
        ensures opening { result.now ≡ self.now.opening }
        ensures lawful { IsLawfulOpening self.now.number self.now.opening }
        ensures in_range { IsStateInRange self.now.opening }
    {
        &self.opening
    }

    /// The present state: the replay of the kept entries.
    pub fn state(&self) -> &PortState
        ensures replayed { result.now ≡ present_state self.now }
        ensures admitted { IsAdmitted result.now.rule result.now.gap result.now.roster }
        ensures carries { AreCarries result.now.rule result.now.roster result.now.carries }
    {
        &self.state
    }

    /// The last map of the kept chapter, with the Alloc-IDs of the non-assured and of the best-effort class as they
    /// were at that map, in map order: those of its certificate's flags. `None` before the first map of the chapter.
    pub fn last(&self) -> Option<(&MadeMap, &[AllocId], &[AllocId])>
        ensures members { IfSome result (λ l. MatchesMembers l.0.now.cert l.1.now l.2.now) }
        ensures last { MatchOption result (last_map self.now ≡ None)
            (λ l. last_map self.now
            ≡ Some (record { made = l.0.now; na = l.1.now; be = l.2.now })) }
    {
        match self.entries[self.last?].as_ref() {
            EntryRef::Map(made) => Some((made, self.na.as_slice(), self.be.as_slice())),
            EntryRef::Taken(_) => unreachable!(),
        }
    }

    // Takes an event that makes no map, and returns the index of its entry.
    fn take_plain(&mut self, event: Event) -> Result<usize, Refusal>
        requires plain { makes_map event ≡ false }
        requires in_range { IsEvent event }
        ensures index { IfOk result (λ index. index ≡ length self.old.entries) }
        ensures ok { OnOk result (Takes self.old event Reply.Taken self.new) }
        ensures runs { OnOk result (RunsAreWhole self.new) }
        ensures refused { IfErr result (λ told. IsTold (refusal_of self.old event) told) }
        ensures err { OnErr result (self.new ≡ self.old) }
    {
        let index = self.entries.len();
        let checked = match check(&self.state, index, &event) {
            Ok(checked) => checked,
            Err(refusal) => return Err(refusal),
        };
        self.entries.reserve(1)?;
        step(&mut self.state, &checked)?;
        self.entries.push_reserved(Entry::new(event, Reply::Taken));
        Ok(index)
    }

    // Makes the next map.
    fn ready_map(&mut self) -> Result<ReadyMap, Refusal>
        ensures ready { IfOk result (λ next. IsReady (present_state self.old) next) }
        ensures accepted { OnOk result (refusal_of self.old Event.MakeMap ≡ None) }
        ensures refused { IfErr result (λ told. IsTold (refusal_of self.old Event.MakeMap) told) }
        ensures same { self.new ≡ self.old }
    {
        if let Err(refusal) = check(&self.state, self.entries.len(), &Event::MakeMap) {
            return Err(refusal);
        }
        let next = next_map(*self.entries.allocator(), &mut self.room, &self.state)?;
        Ok(next)
    }

    // Keeps the next map, and returns the index of its entry.
    fn keep_map(&mut self, next: ReadyMap) -> Result<usize, Refusal>
        requires ready { IsReady (present_state self.old) next }
        requires accepted { refusal_of self.old Event.MakeMap ≡ None }
        ensures index { IfOk result (λ index. index ≡ length self.old.entries) }
        ensures ok { OnOk result (Takes self.old Event.MakeMap (Reply.Map next.made) self.new) }
        ensures fair { OnOk result (IsFairMap (present_state self.old) next.made) }
        ensures runs { OnOk result (RunsAreWhole self.new) }
        ensures refused { IfErr result (IsTold None) }
        ensures err { OnErr result (self.new ≡ self.old) }
    {
        let ReadyMap {
            made,
            grants,
            carries,
            na,
            be,
        } = next;
        self.entries.reserve(1)?;
        let left = add_map(&mut self.state, grants, carries)?;
        self.room.keep_grants(left);
        let index = self.entries.len();
        self.last = Some(index);
        self.na = na;
        self.be = be;
        self.entries
            .push_reserved(Entry::new(Event::MakeMap, Reply::Map(made)));
        Ok(index)
    }

    /// Takes an event and keeps it with its reply.
    ///
    /// # Errors
    ///
    /// The first refusal of the event, in these orders. `Admit` is refused by `AllocTaken`, `TooManyAllocs`,
    /// `TooManyOnus`, `SeriesFull`, `Capacity`; `Change` by `NoSuchAlloc`, `Capacity`; `Remove` by `NoSuchAlloc`.
    /// `Report` is refused by `PortDown`, `StaleFrame`, `NotPolled`, `ReportCount`, `AlreadyReported`. `MakeMap` is
    /// refused by `PortDown`, `FrameLimit`; `Fail` by `PortDown`; `Restore` by `PortUp`. Each event is then refused by
    /// `ChapterFull` and `OutOfMemory`.
    ///
    /// `OutOfMemory` only if no check refuses. After a refusal the state and the history are unchanged.
    pub fn take(&mut self, event: Event) -> Result<Reply, Refusal>
        ensures ok { IfOk result (λ reply. Takes self.old event reply self.new) }
        // Each map is fair: certified, the fairest, in whole words, with bursts that do not overlap.
        ensures fair { IfOk result (λ reply. TellsFairMap (present_state self.old) reply) }
        // Over each run of maps from an admission on, the words are the whole part of the sum of the rates, under the
        // rule that carries what whole words leave.
        ensures runs { OnOk result (RunsAreWhole self.new) }
        ensures refused { IfErr result (λ told. IsTold (refusal_of self.old event) told) }
        ensures err { OnErr result (self.new ≡ self.old) }
    {
        if let Event::MakeMap = event {
            let next = self.ready_map()?;
            let made = next.made.try_copy(*self.entries.allocator())?;
            self.keep_map(next)?;
            return Ok(Reply::Map(made));
        }
        prove_in_range(&event);
        self.take_plain(event)?;
        Ok(Reply::Taken)
    }

    /// Takes an event and keeps it with its reply, as [`Port::take`] does, but returns no copy of the reply. Returns
    /// the index of the entry, which is the last one.
    ///
    /// # Errors
    ///
    /// As for [`Port::take`].
    pub fn keep(&mut self, event: Event) -> Result<usize, Refusal>
        ensures index { IfOk result (λ index. index ≡ length self.old.entries) }
        ensures ok { OnOk result (Keeps self.old event self.new) }
        ensures runs { OnOk result (RunsAreWhole self.new) }
        ensures refused { IfErr result (λ told. IsTold (refusal_of self.old event) told) }
        ensures err { OnErr result (self.new ≡ self.old) }
    {
        if let Event::MakeMap = event {
            let next = self.ready_map()?;
            return self.keep_map(next);
        }
        prove_in_range(&event);
        self.take_plain(event)
    }

    /// Turns the port: returns the kept chapter, and begins the next one, which opens with the present state. No entry
    /// is copied.
    ///
    /// # Errors
    ///
    /// `ChapterFull` exactly when the kept chapter has the last number, 2^64 - 1; otherwise `OutOfMemory`, only if
    /// memory for the opening is refused. After a refusal nothing has changed.
    pub fn turn(&mut self) -> Result<Chapter, Refusal>
        ensures ok { IfOk result (λ chapter. Turns self.old chapter self.new) }
        ensures refused { IfErr result (λ told. IsTold (turn_refusal self.old) told) }
        ensures err { OnErr result (self.new ≡ self.old) }
    {
        if self.number == u64::MAX {
            return Err(Refusal::ChapterFull);
        }
        let alloc = *self.entries.allocator();
        let opening = self.state.try_copy(alloc)?;
        let opening = mem::replace(&mut self.opening, opening);
        let entries = mem::replace(&mut self.entries, Vec::new(alloc));
        let chapter = Chapter::new(self.number, opening, entries);
        self.number += 1;
        self.last = None;
        Ok(chapter)
    }

    /// Returns the kept chapter. It allocates no memory.
    pub fn into_chapter(self) -> Chapter
        ensures { result ≡ self }
    {
        Chapter::new(self.number, self.opening, self.entries)
    }
}
