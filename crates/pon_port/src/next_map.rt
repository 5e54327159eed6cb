//! The next map of a state.

ghost use Rattle.std.specs.Prelude.{◌≡◌, IfOk};
ghost use Rattle.pon_admit.specs.Roster.{IsAdmitted};
ghost use Rattle.pon_units.specs.Granted.{AreInMapOrder};
ghost use Rattle.pon_descr.specs.declared.class.Class.TheVariants.{NonAssured, BestEffort};
ghost use Rattle.pon_demand.specs.Carries.{AreCarries};
ghost use Rattle.pon_demand.specs.Sharing.{member_ids};
ghost use Rattle.pon_state.specs.Carries.{carries_left};
ghost use Rattle.pon_state.specs.Maps.{grants_in_map};
ghost use Rattle.pon_state.specs.Legal.{IsMade};

use crate::certificates::map_cert;
use pon_demand::{MapBuffers, Problems};
use pon_state::{MadeMap, MapUnder, PortState, Reply, map_under, next_problems};
use pon_units::{AllocId, Granted};
use std::alloc::{AllocError, Global};

/// A finished map.
#[derive(Drop)]
pub struct ReadyMap {
    /// Its reply: the map, its frame and its certificate.
    pub made: MadeMap,
    /// Its grants, in map order.
    pub grants: Vec<Granted>,
    /// What the grants leave to each Alloc-ID, in map order, in kbit/s: 0 to 255.
    pub carries: Vec<u8>,
    /// The Alloc-IDs of the non-assured class, which share surplus, in map order.
    pub na: Vec<AllocId>,
    /// The Alloc-IDs of the best-effort class, which share surplus, in map order.
    pub be: Vec<AllocId>,
}

/// Makes the map of the state's next frame, with its certificate. `buffers` is memory for its demands and its grants.
///
/// # Errors
///
/// `AllocError` only if memory is refused.
pub fn next_map(
    alloc: Global,
    buffers: &mut MapBuffers,
    state: &PortState,
) -> Result<ReadyMap, AllocError>
    requires admitted { IsAdmitted state.now.rule state.now.gap state.now.roster }
    requires carries { AreCarries state.now.rule state.now.roster state.now.carries }
    ensures made { IfOk result (λ next. IsMade state.now next.made) }
    ensures carries { IfOk result (λ next. next.carries.items
        ≡ carries_left state.now (Reply.Map next.made)) }
    ensures map_order { IfOk result (λ next. AreInMapOrder next.grants.items) }
    ensures grants { IfOk result (λ next. next.grants.items
        ≡ grants_in_map state.now.roster next.made.map) }
    ensures na { IfOk result (λ next. next.na.items ≡ member_ids NonAssured state.now.roster) }
    ensures be { IfOk result (λ next. next.be.items ≡ member_ids BestEffort state.now.roster) }
{
    let problems = next_problems(alloc, buffers, state)?;
    let (na, be) = (problems.na.items.as_slice(), problems.be.items.as_slice());
    let cert = map_cert(alloc, na, be, problems.surplus)?;
    let MapUnder {
        map,
        grants,
        carries,
    } = map_under(alloc, buffers, state, &problems, &cert)?;
    let Problems {
        demands,
        na,
        be,
        ..
    } = problems;
    buffers.keep_demands(demands);
    let frame = state.next_frame();
    Ok(ReadyMap {
        made: MadeMap { frame, map, cert },
        grants,
        carries,
        na: na.ids,
        be: be.ids,
    })
}
