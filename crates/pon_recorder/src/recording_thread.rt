//! The recorder's thread.

ghost use Rattle.std.specs.Prelude.{◌≡◌, ◌≤◌, [], IfOk, OnOk, is_ok, map, slice_set, true};
ghost use Rattle.std.specs.Option.{ForSome};
ghost use Rattle.std.specs.Vec.{vec_len};
ghost use Rattle.pon_lists.specs.Kept.{kept_items};
ghost use Rattle.pon_recorder.specs.Whole.{IsWholeRecording, RecordsAll, StaysSound, StaysWhole, kept_at, kept_bodies};
ghost use Rattle.pon_recorder.specs.Rings.{AreRingsOf};

use crate::chapter_watch::ChapterWatch;
use crate::inlet::{Inlet, TakenChapters};
use crate::next_device::NextDevice;
use crate::port_sink::PortSink;
use crate::recorder::{Ended, Recorder};
use crate::rings::{PortRing, Rings};
use crate::rounds::take_round;
use pon_device::{DevWrite, DeviceFault};
use pon_lists::Kept;
use pon_port::{Chapter, Port};
use pon_units::{MAX_PORTS, PortNo};
use std::alloc::{AllocError, Global};
use std::sync::Wait;
use std::thread;
use std::time::{Clock, Duration};

/// How long the recorder sleeps after it found all rings empty, in milliseconds: a port fills a chapter in many times
/// that.
const PAUSE_MILLISECONDS: u64 = 1;

/// A recorder, and the ends of the rings of all ports, in order.
#[derive(Drop)]
pub struct Recording<K: Rings, W> {
    pub(crate) recorder: Recorder<W>,
    pub(crate) inlets: Vec<Inlet<K>>,
    // Whether each sink that came back is that of its port.
    whole: bool,
    alloc: Global,
}

/// Where the chapters of the ports go: the sink of each, in order, and the recording after them, if there is one.
#[derive(Drop)]
pub struct Sinks<K: Rings, W> {
    /// The sink of each port, in the order of the ports.
    pub sinks: Vec<PortSink<K>>,
    /// The recorder with its ends of the rings. `None` if the chapters are neither recorded nor kept.
    pub recording: Option<Recording<K, W>>,
}

// Returns what keeps the chapters of a port, if it is to be settled.
fn kept_chapters(alloc: Global, settle: bool) -> Kept<Chapter>
    ensures { ForSome (kept_items result) (λ kept. kept ≡ []) }
{
    if settle {
        Kept::open(alloc)
    } else {
        Kept::Nothing
    }
}

// Splits the rings of all ports into the sinks and the recorder's ends, which keep their chapters if the ports are to
// be settled. `Err` only if memory is refused.
fn split_rings<K: Rings>(
    alloc: Global,
    rings: Vec<PortRing>,
    settle: bool,
) -> Result<(Vec<PortSink<K>>, Vec<Inlet<K>>), AllocError>
    requires few { vec_len rings ≤ MAX_PORTS }
    requires named { AreRingsOf K.ring rings.items }
{
    let mut sinks = Vec::with_capacity(alloc, rings.len())?;
    let mut inlets = Vec::with_capacity(alloc, rings.len())?;
    for ring in rings {
        let port = PortNo::at(sinks.len());
        let PortRing { sink, out } = ring;
        sinks.push(PortSink::new(port, sink))?;
        if let Some(out) = out {
            inlets.push(Inlet::new(port, out, kept_chapters(alloc, settle)))?;
        }
    }
    Ok((sinks, inlets))
}

impl<K: Rings, W: Drop> Sinks<K, W> {
    /// Splits the rings of all ports into the sinks and the recording, which keeps the chapters if the ports are to be
    /// settled.
    ///
    /// # Errors
    ///
    /// `AllocError` only if memory is refused.
    pub fn split(
        alloc: Global,
        rings: Vec<PortRing>,
        recorder: Option<Recorder<W>>,
        settle: bool,
    ) -> Result<Self, AllocError>
        requires few { vec_len rings ≤ MAX_PORTS }
        requires named { AreRingsOf K.ring rings.items }
    {
        let (sinks, inlets) = split_rings::<K>(alloc, rings, settle)?;
        let recording = match recorder {
            None => None,
            Some(recorder) => Some(Recording {
                recorder,
                inlets,
                whole: true,
                alloc,
            }),
        };
        Ok(Sinks { sinks, recording })
    }
}

// Records what a worker left in its sink. Returns whether the sink is that of the port.
fn take_left_of<K: Rings, W: DevWrite + Drop>(
    recorder: &mut Recorder<W>,
    inlet: &mut Inlet<K>,
    sink: PortSink<K>,
) -> bool
    ensures sound { StaysSound recorder.old recorder.new }
{
    match inlet.rest_of(sink) {
        Some(rest) => {
            inlet.take_left(recorder, rest);
            true
        }
        None => false,
    }
}

// Records what the workers left in their sinks, port by port in order. Returns whether each sink is that of its port.
fn take_all_left<K: Rings, W: DevWrite + Drop>(
    recorder: &mut Recorder<W>,
    inlets: &mut [Inlet<K>],
    sinks: Vec<PortSink<K>>,
) -> bool
    ensures sound { StaysSound recorder.old recorder.new }
{
    let mut whole = true;
    for (inlet, sink) in inlets.iter_mut().zip(sinks) {
        whole = take_left_of(recorder, inlet, sink) && whole;
    }
    whole
}

impl<K: Rings, W: DevWrite + Drop> Recording<K, W> {
    /// Records the chapters of all ports as they come, which the watch sees, until the watch stops it. After a round in which a
    /// port has the maps of a device, the recording goes on in the next device, which `next` opens; a device that failed is left before the next
    /// chapter. Where no next device can be begun, it stays in the present one, and tries again at a later chapter.
    pub fn run<R: Wait + Clock, N, C: ChapterWatch>(mut self, rt: &R, next: &N, watch: &C) -> Self
    where
        W: NextDevice<N>,
        ensures whole { StaysWhole self.recorder self.whole result.recorder result.whole }
    {
        for _ in rt.forever() {
            if watch.is_over() {
                break;
            }
            let inlets = self.inlets.as_mut_slice();
            if !take_round(next, self.alloc, &mut self.recorder, inlets, watch) {
                thread::sleep(rt, Duration::from_millis(PAUSE_MILLISECONDS));
            }
        }
        self
    }

    /// Records what the workers left in their sinks, which stand in the order of the ports, port by port.
    pub fn take_left(&mut self, sinks: Vec<PortSink<K>>)
        ensures whole { StaysWhole self.old.recorder self.old.whole self.new.recorder self.new.whole }
    {
        let whole = take_all_left(&mut self.recorder, self.inlets.as_mut_slice(), sinks);
        self.whole = self.whole && whole;
    }

    /// Takes out the chapters of each port for the settlement of the ports: exactly those that were received from its
    /// ring, in order, and then the one that waited in its sink.
    ///
    /// # Errors
    ///
    /// `AllocError` if memory is refused or was refused for a chapter, and if the chapters were not to be kept.
    pub fn taken_chapters(&mut self, alloc: Global) -> Result<Vec<TakenChapters>, AllocError>
        ensures ports { IfOk result (λ all.
            map (λ taken. taken.port) all.items ≡ map (λ i. i.port) self.old.inlets.items) }
        ensures recorder { self.new.recorder ≡ self.old.recorder }
        ensures whole { self.new.whole ≡ self.old.whole }
    {
        let mut all = Vec::with_capacity(alloc, self.inlets.len())?;
        for inlet in &mut self.inlets {
            let Some(taken) = inlet.taken_chapters() else {
                return Err(AllocError);
            };
            all.push(taken)?;
        }
        Ok(all)
    }

    /// Records the chapter that each port keeps, in order, writes the number of each port's dropped chapters to its
    /// place in `dropped`, at most 2^64 - 1, and flushes the file. A port without a place is recorded, and its number
    /// is not written.
    ///
    /// Returns the device, with `Write` if it failed three times in a row, or a sink was not that of its port, and
    /// `Memory` if memory was refused for a chapter.
    pub fn finish(self, ports: Vec<Port>, dropped: &mut [u64]) -> Ended<W>
        ensures whole { OnOk result.result (IsWholeRecording self.recorder self.whole) }
    {
        let Recording {
            mut recorder,
            inlets,
            whole,
            alloc: _,
        } = self;
        take_all_kept(&mut recorder, inlets.as_slice(), ports, dropped);
        let Ended {
            device,
            held,
            result,
        } = recorder.end();
        Ended {
            device,
            held,
            result: with_sinks(result, whole),
        }
    }
}

// Returns how a recording ended, if each sink that came back is that of its port; otherwise `Write`.
fn with_sinks(ended: Result<(), DeviceFault>, whole: bool) -> Result<(), DeviceFault>
    ensures ended { OnOk result (is_ok ended ≡ true) }
    ensures whole { OnOk result (whole ≡ true) }
{
    ended?;
    if whole {
        Ok(())
    } else {
        Err(DeviceFault::Write)
    }
}

// Sets the number of dropped chapters of the port at a place, if there is room for one.
fn set_dropped(dropped: &mut [u64], place: usize, count: u64)
    ensures { dropped.new ≡ slice_set dropped.old place count }
{
    if place < dropped.len() {
        dropped[place] = count;
    }
}

// Records the chapter that the port at a place keeps, if a ring of it has an end there, and sets the number of the
// port's dropped chapters.
fn take_kept_at<K: Rings, W: DevWrite + Drop>(
    recorder: &mut Recorder<W>,
    inlets: &[Inlet<K>],
    place: usize,
    port: Port,
    dropped: &mut [u64],
)
    ensures kept { RecordsAll recorder.old recorder.new (W.contents recorder.old.file.device)
        (W.contents recorder.new.file.device) (kept_at (map (λ i. i.port) inlets.now) place port) }
{
    let Some(inlet) = inlets.get(place) else {
        return;
    };
    let count = inlet.take_kept(recorder, &port.into_chapter());
    set_dropped(dropped, place, count);
}

// Records the chapter that each port keeps, in order, and sets the number of each port's dropped chapters.
fn take_all_kept<K: Rings, W: DevWrite + Drop>(
    recorder: &mut Recorder<W>,
    inlets: &[Inlet<K>],
    ports: Vec<Port>,
    dropped: &mut [u64],
)
    ensures kept { RecordsAll recorder.old recorder.new (W.contents recorder.old.file.device)
        (W.contents recorder.new.file.device) (kept_bodies (map (λ i. i.port) inlets.now) ports.items) }
{
    let mut place = 0;
    for port in ports {
        take_kept_at(recorder, inlets, place, port, dropped);
        place += 1;
    }
}
