//! What the chapters of a recording add up to, port by port.

ghost use Rattle.std.specs.Prelude.{◌≡◌, ◌<◌, ◌++◌, IfOk, OnOk, length};
ghost use Rattle.pon_look.specs.Refusals.{refusals_of};
ghost use Rattle.pon_look.specs.Tallies.{refused_at};

use crate::seen::{Ports, with_port};
use crate::tally::{Tally, refused_entry};
use pon_audit::Judged;
use pon_record::RawChapter;
use pon_units::{AllocId, PortNo};
use pon_why::Series;
use std::alloc::{AllocError, Global};

/// The tally of a port, and the series of the Alloc-ID that is followed there.
#[derive(Drop)]
pub(crate) struct PortTally {
    pub port: PortNo,
    pub tally: Tally,
    pub series: Series,
    // The number of the last chapter, if it was summed up whole.
    last: Option<u64>,
}

impl PortTally {
    // Moves the followed maps into the series.
    fn add_followed(&mut self) -> Result<(), AllocError> {
        if let Some(followed) = self.tally.followed_mut() {
            self.series.add_maps(followed.maps())?;
            followed.clear();
        }
        Ok(())
    }
}

/// A chapter that is refused at an entry.
#[derive(Clone, Copy)]
pub(crate) struct Refused {
    pub port: PortNo,
    pub chapter: u64,
    pub entry: usize,
}

/// What the chapters so far add up to: the tallies of the wanted ports, by ascending port, and the wanted chapters that are
/// refused, in their order; the ports of all chapters.
#[derive(Drop)]
pub(crate) struct PortTallies {
    tallies: Vec<PortTally>,
    pub refused: Vec<Refused>,
    pub ports: Option<Ports>,
    followed: Option<AllocId>,
}

impl PortTallies {
    /// Makes the tallies of no chapters.
    pub(crate) fn new(alloc: Global, followed: Option<AllocId>) -> PortTallies {
        PortTallies {
            tallies: Vec::new(alloc),
            refused: Vec::new(alloc),
            ports: None,
            followed,
        }
    }

    /// The tallies of the wanted ports that have a chapter, by ascending port.
    pub(crate) fn as_slice(&self) -> &[PortTally] {
        self.tallies.as_slice()
    }

    /// Notes that a chapter is of a port.
    pub(crate) fn see(&mut self, port: PortNo) {
        self.ports = Some(with_port(self.ports, port));
    }

    // Returns the place of the tally of a port, which is made if there is none.
    fn place_of(&mut self, alloc: Global, port: PortNo) -> Result<usize, AllocError>
        ensures within { IfOk result (λ place. place < length self.new.tallies.items) }
        ensures refused { self.new.refused ≡ self.old.refused }
    {
        let place = self.tallies.partition_point(|tally| tally.port < port);
        if place < self.tallies.len() && self.tallies[place].port == port {
            return Ok(place);
        }
        let tally = PortTally {
            port,
            tally: Tally::new(alloc, self.followed)?,
            series: Series::new(alloc),
            last: None,
        };
        self.tallies.insert(place, tally)?;
        Ok(place)
    }

    /// The tally of the port of a chapter, to which the chapter is added next. It is made if there is none. `Err` only if
    /// memory is refused.
    pub(crate) fn before(
        &mut self,
        alloc: Global,
        chapter: &RawChapter,
    ) -> Result<&mut Tally, AllocError> {
        let place = self.place_of(alloc, chapter.port)?;
        let PortTally { tally, last, .. } = &mut self.tallies[place];
        tally.go_on(*last, chapter.number);
        Ok(tally)
    }

    /// A chapter was added to the tally of its port, and judged. One that is refused at an entry is noted. `Err` only if
    /// memory is refused.
    pub(crate) fn note_judged(
        &mut self,
        alloc: Global,
        chapter: &RawChapter,
        judged: &Judged,
    ) -> Result<(), AllocError>
        ensures refused { OnOk result (self.new.refused.items
            ≡ self.old.refused.items ++ refusals_of chapter.now.body (refused_at judged.now)) }
    {
        let place = self.place_of(alloc, chapter.port)?;
        let refused = refused_entry(judged);
        self.tallies[place].last = match refused {
            Some(_) => None,
            None => Some(chapter.number),
        };
        if let Some(entry) = refused {
            self.refused.push(Refused {
                port: chapter.port,
                chapter: chapter.number,
                entry,
            })?;
        }
        Ok(())
    }

    /// Moves the followed maps of each tally into the series of its port. `Err` if memory is refused or a sum is 2^64 or
    /// more.
    pub(crate) fn add_followed(&mut self) -> Result<(), AllocError> {
        for place in 0..self.tallies.len() {
            if let Some(port) = self.tallies.get_mut(place) {
                port.add_followed()?;
            }
        }
        Ok(())
    }
}
