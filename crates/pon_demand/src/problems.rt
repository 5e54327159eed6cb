//! The class problems of a map, against which its certificate is checked.

ghost use Rattle.std.specs.Prelude.{◌≡◌, IfOk};
ghost use Rattle.pon_admit.specs.Roster.{IsAdmitted};
ghost use Rattle.pon_demand.specs.Problems.{AreProblems};
ghost use Rattle.pon_demand.specs.Carries.{AreCarries, number_of};
ghost use Rattle.pon_demand.specs.Rates.{carried, planned_grants};
ghost use Rattle.pon_demand.specs.Sharing.{IsCertified, surplus_rate};

use crate::buffers::MapBuffers;
use crate::demand::{Demand, demands_of};
use crate::grants::{Grants, planned_grants};
use crate::input::ShareInput;
use crate::sharing::{Members, both_members, surplus_of};
use pon_cert::MapCert;
use std::alloc::{AllocError, Global};

/// The class problems of a map.
#[derive(Drop)]
pub struct Problems {
    /// The demand of each admitted Alloc-ID, in map order.
    pub demands: Vec<Demand>,
    /// The members of the non-assured class, with their items.
    pub na: Members,
    /// The members of the best-effort class, with their items.
    pub be: Members,
    /// The surplus in kbit/s that the non-assured class shares first.
    pub surplus: u64,
}

/// Makes the class problems of the next map, with the demands in the memory of `buffers`.
///
/// # Errors
///
/// `AllocError` only if memory is refused.
pub fn class_problems(
    alloc: Global,
    buffers: &mut MapBuffers,
    input: &ShareInput,
) -> Result<Problems, AllocError>
    requires admitted { IsAdmitted input.now.rule input.now.gap input.now.roster }
    ensures { IfOk result (λ problems. AreProblems input.now problems) }
{
    let demands = demands_of(buffers.take_demands(alloc), input)?;
    let both = both_members(alloc, demands.as_slice())?;
    let surplus = surplus_of(input, demands.as_slice());
    Ok(Problems {
        demands,
        na: both.na,
        be: both.be,
        surplus,
    })
}

/// Computes the grant of each admitted Alloc-ID under a certificate, and what it leaves, both in map order. A grant is
/// the whole words of the guaranteed rate, the surplus rate that the certificate gives, and the carry, together. Both
/// lists are in the memory of `buffers`.
///
/// # Errors
///
/// `AllocError` only if memory is refused.
pub fn grants_under(
    alloc: Global,
    buffers: &mut MapBuffers,
    input: &ShareInput,
    problems: &Problems,
    cert: &MapCert,
    carries: &[u8],
) -> Result<Grants, AllocError>
    requires admitted { IsAdmitted input.now.rule input.now.gap input.now.roster }
    requires problems { AreProblems input.now problems.now }
    requires certified { IsCertified input.now cert.now }
    requires carries { AreCarries input.now.rule input.now.roster carries.now }
    ensures grants { IfOk result (λ g. g.grants.items
        ≡ planned_grants input.now (surplus_rate input.now cert.now)
        (λ r. number_of input.now.roster carries.now r.alloc_id)) }
    ensures carries { IfOk result (λ g. g.carries.items
        ≡ carried input.now (surplus_rate input.now cert.now)
        (λ r. number_of input.now.roster carries.now r.alloc_id)) }
{
    let demands = problems.demands.as_slice();
    planned_grants(buffers.take_grants(alloc), input, demands, cert, carries)
}
