//! The ends of the chapters of a recording, so far.

ghost use Rattle.std.specs.Prelude.{◌≡◌, ◌<◌, [], IfOk, None, OnOk, length, replicate, slice_index_or};
ghost use Rattle.std.specs.Option.{option_copied};
ghost use Rattle.pon_units.specs.declared.limits.TheConstants.{MAX_PORTS};
ghost use Rattle.pon_audit.specs.EndTables.{after_end, end_at, pushed, replaced};

use pon_record::RawChapter;
use pon_state::PortState;
use pon_units::{MAX_PORTS, PortNo};
use std::alloc::{AllocError, Global};
use std::marker::Model;

/// The port and the number of a chapter, and the state at its end.
#[derive(Drop)]
pub(crate) struct End {
    pub port: PortNo,
    pub number: u64,
    pub end: PortState,
}

/// Which states at the ends of chapters an audit keeps. A state takes about 20 kB.
#[derive(Clone, Copy, Debug, PartialEq, Eq)]
pub enum KeptEnds {
    /// The state at the end of each port so far. It does not suffice for a chapter whose number does not ascend: whether
    /// it opens with the end of an earlier chapter cannot be said then, so the audit ends without a verdict.
    OfPorts,
    /// The state at the end of each chapter so far. It always suffices.
    OfChapters,
}

/// The ends of chapters that are kept, and the place of the last one of each port among them. If all are kept, they are in
/// the order of the recording.
#[derive(Drop)]
pub(crate) struct Ends {
    kept: KeptEnds,
    ends: Vec<End>,
    places: Vec<Option<usize>>,
}

impl Model for Ends {
    ghost use Rattle.std.specs.Prelude.{◌≡◌, length};
    ghost use Rattle.pon_units.specs.declared.limits.TheConstants.{MAX_PORTS};
    ghost use Rattle.pon_audit.specs.EndTables.{EndTable};

    ghost Value = { EndTable };

    ghost view = { λ e. record { kept = e.kept; ends = e.ends.items; places = e.places.items } };

    ghost invariant = { λ e. length e.places.items ≡ MAX_PORTS };
}

impl Ends {
    /// Makes the table of no chapters, which keeps these ends.
    ///
    /// # Errors
    ///
    /// `AllocError` only if memory is refused.
    pub fn open(alloc: Global, kept: KeptEnds) -> Result<Ends, AllocError>
        ensures { IfOk result (λ e. e
            ≡ record { kept = kept; ends = []; places = replicate MAX_PORTS None }) }
    {
        let mut places = Vec::with_capacity(alloc, MAX_PORTS)?;
        for _port in 0..MAX_PORTS {
            places.push(None)?;
        }
        let ends = Vec::new(alloc);
        Ok(Ends { kept, ends, places })
    }

    /// Which ends are kept.
    pub fn kept(&self) -> KeptEnds
        ensures { result ≡ self.now.kept }
    {
        self.kept
    }

    /// The ends that are kept.
    pub fn all(&self) -> &[End]
        ensures { result.now ≡ self.now.ends }
    {
        self.ends.as_slice()
    }

    /// The end of the last chapter of a port; `None` if it has none so far.
    pub fn last_of(&self, port: PortNo) -> Option<&End>
        ensures value { option_copied result
            ≡ end_at self.now.ends (slice_index_or self.now.places port None) }
        ensures range { port < MAX_PORTS }
    {
        match self.places[usize::from(port.get())] {
            Some(place) => self.ends.get(place),
            None => None,
        }
    }

    // Adds the end of a chapter after those that are kept. `Err` only if memory is refused.
    fn push(&mut self, end: End) -> Result<(), AllocError>
        requires range { end.port < MAX_PORTS }
        ensures { OnOk result (self.new ≡ pushed self.old end) }
    {
        let place = self.ends.len();
        let port = end.port;
        if self.ends.push(end).is_err() {
            return Err(AllocError);
        }
        self.places[usize::from(port.get())] = Some(place);
        Ok(())
    }

    // Returns the place of the end that the next one of a port replaces: that of the last, if no other is kept.
    fn replaced(&self, port: PortNo) -> Option<usize>
        ensures place { result ≡ replaced self.now port }
        ensures range { port < MAX_PORTS }
    {
        match self.kept {
            KeptEnds::OfPorts => self.places[usize::from(port.get())],
            KeptEnds::OfChapters => None,
        }
    }

    /// Keeps the state at the end of a chapter.
    ///
    /// # Errors
    ///
    /// `AllocError` only if memory is refused.
    pub fn keep(&mut self, chapter: &RawChapter, end: PortState) -> Result<(), AllocError>
        ensures kept { OnOk result (self.new ≡ after_end self.old record {
          port = chapter.now.body.port;
          number = chapter.now.body.number;
          end = end;
        }) }
        ensures range { chapter.now.body.port < MAX_PORTS }
        ensures len { length self.old.places ≡ MAX_PORTS }
    {
        let (port, number) = (chapter.port, chapter.number);
        let end = End { port, number, end };
        match self.replaced(port) {
            Some(place) if place < self.ends.len() => {
                self.ends[place] = end;
                Ok(())
            }
            _ => self.push(end),
        }
    }
}
