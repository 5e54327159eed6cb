//! The chapters of a port on their way to the recorder.

ghost use Rattle.std.specs.Prelude.{◌≡◌, ◌∷◌, [], is_some, true, map, MatchOption, option_to_list};
ghost use Rattle.std.specs.Option.{ForSome};
ghost use Rattle.pon_record.specs.Bodies.{chapter_body};
ghost use Rattle.std.proofs.Props.{props};
ghost use Rattle.pon_lists.specs.Kept.{AddsTo, kept_items};
ghost use Rattle.pon_ring.specs.Rings.{SameOut, received_chapters};
ghost use Rattle.pon_recorder.specs.Going.{CountsMaps, TakesOn};
ghost use Rattle.pon_recorder.specs.Recordings.{TakesChapters};
ghost use Rattle.pon_recorder.specs.Whole.{StaysSound};

use crate::map_count::map_count;
use crate::next_device::NextDevice;
use crate::port_maps::PortMaps;
use crate::port_sink::PortSink;
use crate::recorder::Recorder;
use crate::rings::Rings;
use pon_device::DevWrite;
use pon_lists::Kept;
use pon_port::Chapter;
use pon_ring::{Rest, RingIn, RingOut};
use pon_units::PortNo;
use std::alloc::Global;
use std::marker::PhantomData;

/// The chapters of a port that the recorder took, in order, for the settlement of the port.
#[derive(Drop)]
pub struct TakenChapters {
    /// The number of the port.
    pub port: PortNo,
    /// The chapters, oldest first.
    pub chapters: Vec<Chapter>,
}

/// The recorder's end of the ring of a port, and the number of the port's chapters that the recorder dropped, at most
/// 2^64 - 1.
#[derive(Drop)]
pub(crate) struct Inlet<K: Rings> {
    pub(crate) port: PortNo,
    pub(crate) ring: RingOut,
    pub(crate) dropped: u64,
    // The chapters that were taken out of the ring, if the port is to be settled.
    taken: Kept<Chapter>,
    // The chapter that waited in the sink, after these, if the port is to be settled.
    pub(crate) waited: Option<Chapter>,
    // The maps of the recorded chapters in the present device.
    pub(crate) maps: PortMaps,
    of: PhantomData<K>,
    ghost named: { is_some (K.ring port) ≡ true },
    ghost of_port: { ForSome (K.ring port) (λ o. SameOut o ring) },
    ghost kept: { ForSome (kept_items taken) (λ kept. kept ≡ received_chapters ring) } by { Prim.hlevel props },
}

// Records a chapter, if there is one. Returns the number of its maps, 0 if it is dropped.
fn record_any<W: DevWrite + Drop>(
    recorder: &mut Recorder<W>,
    port: PortNo,
    chapter: &Option<Chapter>,
    dropped: &mut u64,
) -> u64
    ensures sound { StaysSound recorder.old recorder.new }
    ensures maps { CountsMaps recorder.old recorder.new port chapter.now result }
    ensures taken { TakesChapters (W.contents recorder.old.file.device) recorder.old.file.left
        (W.contents recorder.new.file.device) recorder.new.file.left dropped.old dropped.new
        (map (chapter_body port) (option_to_list chapter.now)) }
{
    let Some(chapter) = chapter else {
        return 0;
    };
    if recorder.record(port, chapter, dropped) {
        map_count(chapter)
    } else {
        0
    }
}

// Records a chapter, if there is one: in the next device, if the present one takes no further chapter and the next can be
// begun. Returns the number of its maps, 0 if it is dropped.
fn record_on<R, W: NextDevice<R> + Drop>(
    rt: &R,
    alloc: Global,
    recorder: &mut Recorder<W>,
    port: PortNo,
    chapter: &Option<Chapter>,
    dropped: &mut u64,
) -> u64
    ensures sound { StaysSound recorder.old recorder.new }
    ensures taken { TakesOn W.DevWrite.contents recorder.old recorder.new dropped.old dropped.new port
        chapter.now result }
{
    if chapter.is_none() {
        return 0;
    }
    recorder.try_again(rt, alloc);
    record_any(recorder, port, chapter, dropped)
}

// Keeps a chapter, if there is one and chapters are to be kept. Returns whether there is one.
fn keep_any(taken: &mut Kept<Chapter>, chapter: Option<Chapter>) -> bool
    ensures there { result ≡ is_some chapter }
    ensures kept { MatchOption chapter (kept_items taken.new ≡ kept_items taken.old)
        (λ c. AddsTo (kept_items taken.old) c (kept_items taken.new)) }
{
    match chapter {
        Some(chapter) => {
            taken.add(chapter);
            true
        }
        None => false,
    }
}

impl<K: Rings> Inlet<K> {
    ghost use Rattle.std.specs.Prelude.{ℕ, ◌+◌, ◌++◌, ◌⊎◌, min, IfSome, IsSome, List, None, Option, Some};
    ghost use Rattle.pon_history.specs.Chapters.{Chapter};
    ghost use Rattle.pon_ring.specs.Rings.{AreEnds, sent_chapters};
    ghost use Rattle.pon_recorder.specs.Recordings.{Pops, left_of, most_dropped, taken_from};
    ghost use Rattle.pon_recorder.specs.Going.{TakesOn};
    ghost use Rattle.pon_recorder.specs.PortMaps.{maps_after};
    ghost use Rattle.pon_recorder.specs.Whole.{RecordsAll, StaysSound};

    pub(crate) fn new(port: PortNo, ring: RingOut, taken: Kept<Chapter>) -> Self
        requires named { K.ring port ≡ Some ring }
        requires none_received { received_chapters ring ≡ [] }
        requires none_kept { ForSome (kept_items taken) (λ kept. kept ≡ []) }
        ensures port { result.port ≡ port }
        ensures ring { result.ring ≡ ring }
    {
        Inlet {
            port,
            ring,
            dropped: 0,
            taken,
            waited: None,
            maps: PortMaps::none(),
            of: PhantomData,
        }
    }

    /// Records the oldest chapter in the ring: in the next device, if the present one takes no further chapter and the next
    /// can be begun. Returns `false` if the ring is empty.
    pub(crate) fn take<N, W: NextDevice<N> + Drop>(
        &mut self,
        next: &N,
        alloc: Global,
        recorder: &mut Recorder<W>,
    ) -> bool
        ensures port { self.new.port ≡ self.old.port }
        ensures sound { StaysSound recorder.old recorder.new }
        ensures taken { (popped : Option Chapter) × (result ≡ is_some popped)
            × Pops self.old.ring self.new.ring (option_to_list popped)
            × (count : ℕ) × TakesOn W.DevWrite.contents recorder.old recorder.new self.old.dropped
            self.new.dropped self.old.port popped count
            × (self.new.maps ≡ maps_after self.old.maps recorder.new.devices count) }
    {
        let popped = self.ring.pop();
        let maps = record_on(next, alloc, recorder, self.port, &popped, &mut self.dropped);
        self.maps.add(recorder.devices, maps);
        keep_any(&mut self.taken, popped)
    }

    // Records all chapters in the ring, in a thread that has both ends.
    fn take_all<W: DevWrite + Drop>(&mut self, recorder: &mut Recorder<W>, ring: &mut RingIn)
        requires { AreEnds ring.old self.old.ring }
        ensures port { self.new.port ≡ self.old.port }
        ensures received { received_chapters self.new.ring ≡ sent_chapters ring.old }
        ensures sound { StaysSound recorder.old recorder.new }
        ensures taken { (popped : List Chapter)
            × (received_chapters self.old.ring ++ popped ≡ sent_chapters ring.old)
            × TakesChapters (W.contents recorder.old.file.device) recorder.old.file.left
            (W.contents recorder.new.file.device) recorder.new.file.left self.old.dropped
            self.new.dropped (map (chapter_body self.old.port) popped) }
    {
        while let Some(chapter) = self.ring.pop_beside(ring) {
            recorder.record(self.port, &chapter, &mut self.dropped);
            self.taken.add(chapter);
        }
    }

    /// Takes the sink of this port apart, after its worker has ended. `None` if it has no ring, or is the sink of
    /// another port.
    pub(crate) fn rest_of(&self, sink: PortSink<K>) -> Option<Rest>
        ensures { IfSome result (λ rest. AreEnds rest.ring self.now.ring) }
    {
        if sink.port != self.port {
            return None;
        }
        sink.into_rest()
    }

    /// Records what the worker left in its sink: all chapters that are still in the ring, and the one that waits for room.
    /// The chapters that the sink dropped are counted with those that the recorder dropped.
    pub(crate) fn take_left<W: DevWrite + Drop>(&mut self, recorder: &mut Recorder<W>, rest: Rest)
        requires { AreEnds rest.ring self.old.ring }
        ensures port { self.new.port ≡ self.old.port }
        ensures sound { StaysSound recorder.old recorder.new }
        // The chapters that were taken before, and those that are taken now, are all that were sent.
        ensures taken { (popped : List Chapter) × (after : ℕ)
            × (received_chapters self.old.ring ++ popped ≡ sent_chapters rest.ring)
            × TakesChapters (W.contents recorder.old.file.device) recorder.old.file.left
            (W.contents recorder.new.file.device) recorder.new.file.left self.old.dropped after
            (left_of self.old.port popped rest.pending)
            × (self.new.dropped ≡ min (after + rest.dropped) most_dropped) }
        ensures received { received_chapters self.new.ring ≡ sent_chapters rest.ring }
        ensures waited { self.new.waited ≡ rest.pending }
    {
        let Rest {
            mut ring,
            pending,
            dropped,
        } = rest;
        let port = self.port;
        self.take_all(recorder, &mut ring);
        record_any(recorder, port, &pending, &mut self.dropped);
        self.dropped = self.dropped.saturating_add(dropped);
        self.waited = pending;
    }

    /// Records the chapter that the port keeps. Returns the number of the port's dropped chapters.
    pub(crate) fn take_kept<W: DevWrite + Drop>(
        &self,
        recorder: &mut Recorder<W>,
        kept: &Chapter,
    ) -> u64
        ensures all { RecordsAll recorder.old recorder.new (W.contents recorder.old.file.device)
            (W.contents recorder.new.file.device) (chapter_body self.now.port kept.now ∷ []) }
        ensures taken { TakesChapters (W.contents recorder.old.file.device) recorder.old.file.left
            (W.contents recorder.new.file.device) recorder.new.file.left self.now.dropped result
            (chapter_body self.now.port kept.now ∷ []) }
    {
        let mut dropped = self.dropped;
        recorder.record(self.port, kept, &mut dropped);
        dropped
    }

    /// Takes out the chapters that were taken, for the settlement of the port, and keeps no further ones: exactly those that
    /// were received from the ring, in order, and then the one that waited in the sink. `None` if none were to be kept, or
    /// memory was refused for one.
    pub(crate) fn taken_chapters(&mut self) -> Option<TakenChapters>
        ensures ring { self.new.ring ≡ self.old.ring }
        ensures port { self.new.port ≡ self.old.port }
        ensures chapters { MatchOption result
            ((kept_items self.old.taken ≡ None) ⊎ IsSome self.old.waited)
            (λ taken. (taken.port ≡ self.old.port)
            × (taken.chapters.items ≡ taken_from self.old.ring self.old.waited)) }
    {
        let mut chapters = self.taken.take()?;
        if let Some(waited) = self.waited.take() {
            chapters.push(waited).ok()?;
        }
        Some(TakenChapters {
            port: self.port,
            chapters,
        })
    }
}
