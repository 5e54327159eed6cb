//! The map of a frame in a recording.

ghost use Rattle.std.specs.Prelude.{◌<◌, ◌↔◌, All, IfOk, IfSome, IsTrue, List, Option, length, ℕ};
ghost use Rattle.pon_audit.specs.Auditing.{IsAuditing};
ghost use Rattle.pon_audit.specs.Openings.{FitsRecording};
ghost use Rattle.pon_audit.specs.Streams.{IsVerdictOf, TellsFailure};
ghost use Rattle.pon_look.specs.Finding.{ComesBefore, IsFound};

use crate::frames::{first_frame, last_frame};
use crate::query::{Missing, WhyQuery};
use crate::seen::{Ports, missing_port, with_port};
use crate::viewed::Viewed;
use pon_audit::{Auditing, KeptEnds, Step};
use pon_device::{DevRead, DeviceFault};
use pon_record::RawChapter;
use pon_state::{Entry, EntryRef, MadeMap};
use pon_units::{AllocId, FrameNo, PortNo};
use std::alloc::Global;
use std::thread::Threads;

/// A map in a recording: its chapter, the index of its entry there, and its frame.
#[derive(Drop)]
pub(crate) struct FoundMap {
    pub(crate) chapter: RawChapter,
    pub(crate) entry: usize,
    pub(crate) frame: FrameNo,
}

/// The least and the greatest frame of the maps of a port.
#[derive(Clone, Copy)]
struct PortFrames {
    port: PortNo,
    first: FrameNo,
    last: FrameNo,
}

// Returns the frames of the lower of two ports, or those of both chapters of one port.
fn of_lower(known: &PortFrames, other: &PortFrames) -> PortFrames {
    if known.port < other.port {
        return *known;
    }
    if other.port < known.port {
        return *other;
    }
    PortFrames {
        port: known.port,
        first: known.first.min(other.first),
        last: known.last.max(other.last),
    }
}

// Returns the frames of the lowest port so far, with a further chapter.
fn with_chapter(frames: Option<PortFrames>, chapter: &RawChapter) -> Option<PortFrames> {
    let (entries, port) = (chapter.entries.as_slice(), chapter.port);
    let (Some(first), Some(last)) = (first_frame(entries), last_frame(entries)) else {
        return frames;
    };
    let other = PortFrames { port, first, last };
    match frames {
        Some(known) => Some(of_lower(&known, &other)),
        None => Some(other),
    }
}

// Returns whether a map has a structure of an Alloc-ID.
fn has_alloc(made: &MadeMap, alloc_id: AllocId) -> bool {
    let structures = made.map.rows();
    structures.iter().any(|it| it.id() == alloc_id.get())
}

// The index of a map in its chapter, and whether it has no structure of the Alloc-ID that is asked for.
#[derive(Clone, Copy)]
struct WantedMap {
    entry: usize,
    lacks_alloc: bool,
}

// Returns whether an entry is a map of the frame that is asked for; if it is one, whether it lacks the Alloc-ID.
fn fit_of(entry: &Entry, query: &WhyQuery) -> Option<bool> {
    let EntryRef::Map(made) = entry.as_ref() else {
        return None;
    };
    match query.frame {
        Some(frame) if made.frame != frame => None,
        _ => Some(
            query
                .alloc
                .is_some_and(|alloc_id| !has_alloc(made, alloc_id)),
        ),
    }
}

// Returns whether a later map of a chapter is taken in place of one that was found.
fn is_taken(found: Option<WantedMap>, lacks_alloc: bool, query: &WhyQuery) -> bool {
    match found {
        None => true,
        Some(before) if before.lacks_alloc == lacks_alloc => query.frame.is_none(),
        Some(before) => before.lacks_alloc,
    }
}

// Returns the map that is asked for among the entries of a chapter: with the Alloc-ID, if one has it; of these the first
// of a frame, and the last without a frame.
fn wanted_in(entries: &[Entry], query: &WhyQuery) -> Option<WantedMap>
    ensures { IfSome result (λ map. map.entry < length entries.now) }
{
    let mut found: Option<WantedMap> = None;
    for entry in 0..entries.len() {
        if let Some(lacks_alloc) = fit_of(&entries[entry], query) {
            if is_taken(found, lacks_alloc, query) {
                found = Some(WantedMap { entry, lacks_alloc });
            }
        }
    }
    found
}

// How well a map fits: one with the Alloc-ID before one without, then one of a lower port.
#[derive(Clone, Copy)]
struct Rank {
    port: PortNo,
    lacks_alloc: bool,
}

impl Rank {
    // Returns whether a map of this rank is shown before one of another rank.
    fn is_before(&self, other: &Rank) -> bool
        ensures { IsTrue result ↔ ComesBefore self.now other.now }
    {
        if self.lacks_alloc != other.lacks_alloc {
            return other.lacks_alloc;
        }
        self.port < other.port
    }
}

/// What is looked for, and what was seen so far: the ports of all chapters, the frames of the port that is asked for, or of
/// the lowest one, and the rank of the map that was found.
#[derive(Clone, Copy)]
pub(crate) struct Search {
    query: WhyQuery,
    ports: Option<Ports>,
    // Whether a chapter is of the port that is asked for.
    is_met: bool,
    frames: Option<PortFrames>,
    best: Option<Rank>,
}

// The place of a map among chapters: that of its chapter, and the index of its entry there.
#[derive(Clone, Copy)]
struct MapAt {
    chapter: usize,
    entry: usize,
}

impl Search {
    /// Before the first chapter.
    pub(crate) fn new(query: WhyQuery) -> Search {
        Search {
            query,
            ports: None,
            is_met: false,
            frames: None,
            best: None,
        }
    }

    // Notes a chapter. Returns whether it is of the port that is asked for, or of any port without one.
    fn sees(&mut self, chapter: &RawChapter) -> bool {
        self.ports = Some(with_port(self.ports, chapter.port));
        let is_wanted = self.query.port.is_none() || self.query.port == Some(chapter.port);
        if is_wanted {
            self.is_met = true;
            self.frames = with_chapter(self.frames, chapter);
        }
        is_wanted
    }

    // Returns whether a map of a later chapter is shown in place of the one that was found: without a frame, also one of
    // the same rank.
    fn replaces(&self, rank: &Rank) -> bool {
        match &self.best {
            None => true,
            Some(best) if self.query.frame.is_some() => rank.is_before(best),
            Some(best) => !best.is_before(rank),
        }
    }

    /// Returns what is missing if no map was found.
    pub(crate) fn missing(&self) -> Missing {
        match (self.query.port, self.query.frame, self.frames) {
            (_, Some(frame), Some(PortFrames { port, first, last })) => Missing::Frame {
                port,
                frame,
                first,
                last,
            },
            (port, _, _) if self.is_met => Missing::Maps { port },
            (port, _, _) => missing_port(self.ports, port),
        }
    }

    // Returns the place of the map among chapters that is shown in place of the one that was found.
    fn place_in(&mut self, chapters: &[RawChapter]) -> Option<MapAt>
        ensures { IfSome result (λ at. at.chapter < length chapters.now) }
    {
        let mut found = None;
        for chapter in 0..chapters.len() {
            if let Some(entry) = self.entry_in(&chapters[chapter]) {
                found = Some(MapAt { chapter, entry });
            }
        }
        found
    }

    // Returns the index of the entry of the map of a chapter that is shown in place of the one that was found.
    fn entry_in(&mut self, chapter: &RawChapter) -> Option<usize> {
        if !self.sees(chapter) {
            return None;
        }
        let WantedMap { entry, lacks_alloc } = wanted_in(&chapter.entries, &self.query)?;
        let rank = Rank {
            port: chapter.port,
            lacks_alloc,
        };
        if !self.replaces(&rank) {
            return None;
        }
        self.best = Some(rank);
        Some(entry)
    }
}

// Returns the map of an entry of a chapter.
fn found_at(chapter: RawChapter, entry: usize) -> Option<FoundMap>
    requires { FitsRecording chapter.body }
    ensures { IfSome result IsFound }
{
    let EntryRef::Map(made) = chapter.entries.get(entry)?.as_ref() else {
        return None;
    };
    let frame = made.frame;
    Some(FoundMap {
        chapter,
        entry,
        frame,
    })
}

// Returns the map at a place among chapters.
fn taken_out(chapters: Vec<RawChapter>, at: MapAt) -> Option<FoundMap>
    requires within { at.chapter < length chapters.items }
    requires fit { All (λ c. FitsRecording c.body) chapters.items }
    ensures { IfSome result IsFound }
{
    let mut chapters = chapters;
    let chapter = chapters.swap_remove(at.chapter);
    found_at(chapter, at.entry)
}

/// Returns the map that is found after the next chapters.
pub(crate) fn found_after(
    search: &mut Search,
    found: Option<FoundMap>,
    chapters: Vec<RawChapter>,
) -> Option<FoundMap>
    requires found { IfSome found IsFound }
    requires fit { All (λ c. FitsRecording c.body) chapters.items }
    ensures { IfSome result IsFound }
{
    match search.place_in(&chapters) {
        Some(at) => taken_out(chapters, at),
        None => found,
    }
}

// Finds the map that is looked for in the chapters that are left of a recording. Returns the verdict of its audit too.
fn look_through<R: DevRead>(
    rt: &(impl Threads + Sync),
    alloc: Global,
    auditing: &mut Auditing,
    reader: &mut R,
    search: Search,
) -> Result<Viewed<Result<FoundMap, Missing>>, DeviceFault>
    requires { (start : Option (List ℕ)) × IsAuditing start auditing.old (R.remaining reader.old) }
    ensures found { IfOk result (λ viewed. IfOk viewed.shown IsFound) }
    ensures verdict { IfOk result (λ viewed. (start : Option (List ℕ))
        → IsAuditing start auditing.old (R.remaining reader.old) → IsVerdictOf start viewed.verdict) }
    ensures failures { TellsFailure (R.failures reader.old) (R.failures reader.new) result }
{
    let mut search = search;
    let mut found = None;
    for _batch in 0..u64::MAX {
        let Step { batch, verdict } = auditing.next(rt, alloc, reader)?;
        found = found_after(&mut search, found, batch.chapters);
        if let Some(verdict) = verdict {
            let shown = found.ok_or(search.missing());
            return Ok(Viewed { verdict, shown });
        }
    }
    Err(DeviceFault::Memory)
}

/// Finds the map that a query asks for in a recording, up to the first fault of its format, while it is audited. Without a
/// port it is one of the lowest port that has such a map, whatever the order of the chapters. It is the first map of the
/// frame, or without a frame the last map, and one with the Alloc-ID if there is one. Returns the verdict of the audit, and
/// the map or what is missing.
///
/// `Read` exactly when the reader fails, `Memory` if memory is refused, or the ends that the audit keeps do not suffice.
pub(crate) fn find_map<R: DevRead>(
    rt: &(impl Threads + Sync),
    alloc: Global,
    kept: KeptEnds,
    reader: &mut R,
    query: WhyQuery,
) -> Result<Viewed<Result<FoundMap, Missing>>, DeviceFault>
    ensures found { IfOk result (λ viewed. IfOk viewed.shown IsFound) }
    ensures verdict { IfOk result (λ viewed. IsVerdictOf (R.remaining reader.old) viewed.verdict) }
    ensures failures { TellsFailure (R.failures reader.old) (R.failures reader.new) result }
{
    match Auditing::open(alloc, kept, reader)? {
        Ok(mut auditing) => look_through(rt, alloc, &mut auditing, reader, Search::new(query)),
        Err(verdict) => {
            let shown = Err(Missing::Chapters);
            Ok(Viewed { verdict, shown })
        }
    }
}
