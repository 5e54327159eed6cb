ghost use Rattle.std.specs.Prelude.{◌≡◌, IfOk};
ghost use Rattle.pon_history.specs.Last.{MatchesMembers, last_map};
ghost use Rattle.pon_desk.specs.Views.{view_of};

use pon_descr::Cause;
use pon_port::{MadeMap, Port};
use pon_units::{AllocId, FrameNo, Kbps, Words};
use std::alloc::{AllocError, Global};
use std::marker::Model;

/// A copy of the last map of a port, with the Alloc-IDs of the non-assured and of the best-effort class at that map, in
/// map order.
#[derive(Debug, Drop)]
pub struct LastView {
    made: MadeMap,
    na: Vec<AllocId>,
    be: Vec<AllocId>,
}

impl Model for LastView {
    ghost use Rattle.pon_history.specs.Last.{LastMap, MatchesMembers};

    ghost Value = { LastMap };

    ghost view = { λ l. record { made = l.made; na = l.na.items; be = l.be.items } };

    ghost invariant = { λ l. MatchesMembers l.made.cert l.na.items l.be.items };
}

impl LastView {
    /// The map, with its frame and its certificate.
    pub fn made(&self) -> &MadeMap
        ensures value { result.now ≡ self.now.made }
        ensures members { MatchesMembers self.now.made.cert self.now.na self.now.be }
    {
        &self.made
    }

    /// Alloc-IDs of the non-assured class at that map, in map order.
    pub fn non_assured(&self) -> &[AllocId]
        ensures { result.now ≡ self.now.na }
    {
        self.na.as_slice()
    }

    /// Alloc-IDs of the best-effort class at that map, in map order.
    pub fn best_effort(&self) -> &[AllocId]
        ensures { result.now ≡ self.now.be }
    {
        self.be.as_slice()
    }
}

/// The view of a port: numbers of its present state, and a copy of its last map.
#[derive(Debug, Drop)]
pub struct PortView {
    /// Frame of the next map.
    pub next: FrameNo,
    /// Why the port is failed, if it is.
    pub cause: Option<Cause>,
    /// Number of admitted Alloc-IDs.
    pub allocs: usize,
    /// Number of ONUs that own one of them, 0 to 128.
    pub onus: usize,
    /// Sum of the promised rates (fixed and assured), in kbit/s.
    pub guaranteed: Kbps,
    /// Words of a frame that the overhead leaves, 0 to 9,720.
    pub capacity: Words,
    /// Last map of the kept chapter, or `None` before any map of the chapter.
    pub last: Option<LastView>,
}

// Copies the last map of a port. `Err` only if memory is refused.
fn last_of(alloc: Global, port: &Port) -> Result<Option<LastView>, AllocError>
    ensures { IfOk result (λ last. last ≡ last_map port.now) }
{
    let Some((made, na, be)) = port.last() else {
        return Ok(None);
    };
    Ok(Some(LastView {
        made: made.try_copy(alloc)?,
        na: na.to_vec(alloc)?,
        be: be.to_vec(alloc)?,
    }))
}

// Makes the view of a port. The numbers are kept by the port, so none is recomputed. `Err` only if memory is refused.
pub(crate) fn view_of(alloc: Global, port: &Port) -> Result<PortView, AllocError>
    ensures { IfOk result (λ view. view ≡ view_of port.now) }
{
    let state = port.state();
    let roster = state.roster();
    Ok(PortView {
        next: state.next_frame(),
        cause: state.cause(),
        allocs: roster.rows().len(),
        onus: roster.onus(),
        guaranteed: roster.guaranteed_sum(),
        capacity: roster.capacity(),
        last: last_of(alloc, port)?,
    })
}
