//! The rounds of the recorder's thread: each takes at most one chapter of each port.

ghost use Rattle.std.specs.Prelude.{◌≡◌};
ghost use Rattle.pon_recorder.specs.Going.{EndsRound};
ghost use Rattle.std.specs.List.{list_any};
ghost use Rattle.pon_recorder.specs.PortMaps.{any_full, are_most};
ghost use Rattle.pon_recorder.specs.Whole.{StaysSound};

use crate::chapter_watch::ChapterWatch;
use crate::inlet::Inlet;
use crate::next_device::NextDevice;
use crate::recorder::Recorder;
use crate::rings::Rings;
use std::alloc::Global;

// Returns whether a port has at least `most` maps in the device that has this number of devices before it.
fn has_most<K: Rings>(inlets: &[Inlet<K>], device: u64, most: u64) -> bool
    ensures { result ≡ list_any (λ i. are_most device most i.maps) inlets.now }
{
    inlets.iter().any(|inlet| inlet.maps.are_most(device, most))
}

// Returns whether a port has the maps of a device in the present one.
fn any_full<N, K: Rings, W: NextDevice<N> + Drop>(
    recorder: &Recorder<W>,
    inlets: &[Inlet<K>],
) -> bool
    ensures { result ≡ any_full (λ i. i.maps) (W.NextDevice.most recorder.now.file.device)
        recorder.now.devices inlets.now }
{
    match recorder.file.writer().most_maps() {
        Some(most) => has_most(inlets, recorder.devices, most),
        None => false,
    }
}

// Goes on in the next device, if one can be begun, exactly when a port has the maps of a device in the present one.
fn end_full<N, K: Rings, W: NextDevice<N> + Drop>(
    next: &N,
    alloc: Global,
    recorder: &mut Recorder<W>,
    inlets: &[Inlet<K>],
)
    ensures sound { StaysSound recorder.old recorder.new }
    ensures full { EndsRound W.DevWrite.contents
        (any_full (λ i. i.maps) (W.NextDevice.most recorder.old.file.device) recorder.old.devices inlets.now)
        recorder.old recorder.new }
{
    if any_full(recorder, inlets) {
        recorder.go_on(next, alloc);
    }
}

/// Records at most one chapter of each port, which the watch sees. If a port then has the maps of a device, the recording
/// goes on in the next one. Returns whether there was a chapter.
pub(crate) fn take_round<N, K: Rings, W: NextDevice<N> + Drop, C: ChapterWatch>(
    next: &N,
    alloc: Global,
    recorder: &mut Recorder<W>,
    inlets: &mut [Inlet<K>],
    watch: &C,
) -> bool
    ensures sound { StaysSound recorder.old recorder.new }
{
    let mut taken = false;
    for inlet in inlets.iter_mut() {
        if inlet.take(next, alloc, recorder) {
            watch.took(inlet.port, inlet.dropped);
            taken = true;
        }
    }
    if taken {
        end_full(next, alloc, recorder, inlets);
    }
    taken
}
