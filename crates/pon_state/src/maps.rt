//! The map of a state under a certificate.

ghost use Rattle.std.specs.Prelude.{◌≡◌, IfOk};
ghost use Rattle.pon_admit.specs.Roster.{IsAdmitted};
ghost use Rattle.pon_units.specs.Granted.{AreInMapOrder};
ghost use Rattle.pon_demand.specs.Maps.{map_of};
ghost use Rattle.pon_demand.specs.Problems.{AreProblems};
ghost use Rattle.pon_demand.specs.Sharing.{IsCertified, surplus_rate};
ghost use Rattle.pon_demand.specs.Carries.{AreCarries};
ghost use Rattle.pon_demand.specs.Rates.{carried};
ghost use Rattle.pon_state.specs.State.{carry_at, input_of};
ghost use Rattle.pon_state.specs.Maps.{grants_in_map};

use crate::state::PortState;
use pon_bwmap::Map;
use pon_cert::MapCert;
use pon_demand::{
    Grants, MapBuffers, Problems, ShareInput, class_problems, grants_under, pack_grants,
};
use pon_units::Granted;
use std::alloc::{AllocError, Global};

/// Computes the class problems of the next map, against which a certificate is checked, in the memory of `buffers`.
///
/// # Errors
///
/// `AllocError` only if memory is refused.
pub fn next_problems(
    alloc: Global,
    buffers: &mut MapBuffers,
    state: &PortState,
) -> Result<Problems, AllocError>
    requires admitted { IsAdmitted state.now.rule state.now.gap state.now.roster }
    ensures { IfOk result (λ problems. AreProblems (input_of state.now) problems) }
{
    class_problems(
        alloc,
        buffers,
        &ShareInput::new(&state.roster, &state.loads),
    )
}

/// The map of a state under a certificate.
#[derive(Drop)]
pub struct MapUnder {
    /// The map.
    pub map: Map,
    /// Its grants, in map order.
    pub grants: Vec<Granted>,
    /// What the grants leave to each Alloc-ID, in map order, in kbit/s: 0 to 255.
    pub carries: Vec<u8>,
}

/// Makes the map of the state under a certificate that is accepted for the given class problems. `buffers` is memory
/// for its grants.
///
/// # Errors
///
/// `AllocError` only if memory is refused.
pub fn map_under(
    alloc: Global,
    buffers: &mut MapBuffers,
    state: &PortState,
    problems: &Problems,
    cert: &MapCert,
) -> Result<MapUnder, AllocError>
    requires admitted { IsAdmitted state.now.rule state.now.gap state.now.roster }
    requires problems { AreProblems (input_of state.now) problems.now }
    requires certified { IsCertified (input_of state.now) cert.now }
    requires carries { AreCarries state.now.rule state.now.roster state.now.carries }
    ensures map { IfOk result (λ under. under.map ≡ map_of state.now.profile (input_of state.now)
        (surplus_rate (input_of state.now) cert.now) (carry_at state.now)) }
    ensures carries { IfOk result (λ under. under.carries.items
        ≡ carried (input_of state.now) (surplus_rate (input_of state.now) cert.now)
        (carry_at state.now)) }
    ensures map_order { IfOk result (λ under. AreInMapOrder under.grants.items) }
    ensures grants { IfOk result (λ under. under.grants.items
        ≡ grants_in_map state.now.roster under.map) }
{
    let input = ShareInput::new(&state.roster, &state.loads);
    let Grants { grants, carries } = grants_under(
        alloc,
        buffers,
        &input,
        problems,
        cert,
        &state.carries,
    )?;
    let map = pack_grants(alloc, state.roster.gap(), state.profile, &grants)?;
    Ok(MapUnder {
        map,
        grants,
        carries,
    })
}
