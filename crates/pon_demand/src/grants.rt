//! The payload words of each Alloc-ID: the whole words of its guaranteed and surplus rate and its carry together.

ghost use Rattle.std.specs.Prelude.{◌≡◌, ◌+◌, ◌/◌, ◌≤◌, [], vec_capacity, IfOk};
ghost use Rattle.pon_admit.specs.Roster.{IsAdmitted};
ghost use Rattle.pon_demand.specs.Carries.{AreCarries, number_of};
ghost use Rattle.pon_demand.specs.Rates.{carried, planned_grants};
ghost use Rattle.pon_demand.specs.Sharing.{IsCertified, surplus_rate};
ghost use Rattle.pon_demand.specs.Demands.{demands_of};

use crate::demand::Demand;
use crate::input::ShareInput;
use crate::shares::Shares;
use pon_cert::MapCert;
use pon_units::{Granted, LINE_RATE, WORD_RATE, Words};
use std::alloc::{AllocError, Global};

// Computes what a map owes a demand, in kbit/s: its guaranteed rate, its surplus rate and its carry.
fn owed(demand: &Demand, surplus: u64, carry: u8) -> u64
    requires { demand.now.guaranteed + surplus ≤ LINE_RATE }
    ensures value { result ≡ carry + (demand.now.guaranteed + surplus) }
    ensures range { result ≤ LINE_RATE + 255 }
{
    u64::from(carry) + (u64::from(demand.guaranteed.get()) + surplus)
}

// Computes the grant of a demand that is owed these kbit/s.
fn grant(demand: &Demand, owed: u64) -> Granted
    requires { owed ≤ LINE_RATE + 255 }
    ensures { result ≡ record {
      onu = demand.now.onu;
      alloc_id = demand.now.alloc_id;
      words = owed / WORD_RATE;
    } }
{
    Granted {
        onu: demand.onu,
        alloc_id: demand.alloc_id,
        words: Words::new((owed / WORD_RATE) as u16).unwrap(),
    }
}

/// The grants of a map, and what it leaves for the next map.
#[derive(Drop)]
pub struct Grants {
    /// The grants, in map order.
    pub grants: Vec<Granted>,
    /// What their whole words leave to each Alloc-ID for its next map, 0 to 255 kbit/s, in map order.
    pub carries: Vec<u8>,
}

impl Grants {
    /// Makes empty lists that have no memory.
    pub(crate) fn open(alloc: Global) -> Grants {
        Grants {
            grants: Vec::new(alloc),
            carries: Vec::new(alloc),
        }
    }

    // Empties both lists, and reserves memory for those of this number of Alloc-IDs.
    fn emptied(self, count: usize) -> Result<Grants, AllocError>
        ensures grants { IfOk result (λ g. (g.grants.items ≡ []) × (count ≤ vec_capacity g.grants)) }
        ensures carries { IfOk result (λ g. (g.carries.items ≡ []) × (count ≤ vec_capacity g.carries)) }
    {
        let Grants {
            mut grants,
            mut carries,
        } = self;
        grants.clear();
        grants.reserve(count)?;
        carries.clear();
        carries.reserve(count)?;
        Ok(Grants { grants, carries })
    }
}

/// Computes the grant of each admitted Alloc-ID, in map order, and what it leaves, in the memory of `room`. `former` has
/// what the last map left to each. `Err` only if memory is refused.
pub(crate) fn planned_grants(
    room: Grants,
    input: &ShareInput,
    demands: &[Demand],
    cert: &MapCert,
    former: &[u8],
) -> Result<Grants, AllocError>
    requires admitted { IsAdmitted input.now.rule input.now.gap input.now.roster }
    requires demands { demands.now ≡ demands_of input.now }
    requires certified { IsCertified input.now cert.now }
    requires carries { AreCarries input.now.rule input.now.roster former.now }
    ensures grants { IfOk result (λ g. g.grants.items
        ≡ planned_grants input.now (surplus_rate input.now cert.now)
        (λ r. number_of input.now.roster former.now r.alloc_id)) }
    ensures carries { IfOk result (λ g. g.carries.items
        ≡ carried input.now (surplus_rate input.now cert.now)
        (λ r. number_of input.now.roster former.now r.alloc_id)) }
{
    let Grants {
        mut grants,
        mut carries,
    } = room.emptied(demands.len())?;
    let mut shares = Shares::under(cert);
    for demand in demands {
        let surplus = shares.next(demand).whole;
        let owed = owed(demand, surplus, former[grants.len()]);
        grants.push_reserved(grant(demand, owed));
        carries.push_reserved(input.roster.rule().left_over(owed));
    }
    Ok(Grants { grants, carries })
}
