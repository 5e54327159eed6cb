//! The rates that a map gives to each admitted Alloc-ID.

ghost use Rattle.std.specs.Prelude.{◌≡◌, ◌/◌, All, IfOk};
ghost use Rattle.pon_admit.specs.Roster.{IsAdmitted};
ghost use Rattle.pon_demand.specs.Demands.{demands_of};
ghost use Rattle.pon_demand.specs.Sharing.{IsCertified};
ghost use Rattle.pon_state.specs.State.{input_of};
ghost use Rattle.pon_why.specs.Rates.{IsWithinLine, rates_of};

use pon_cert::MapCert;
use pon_demand::{Demand, Shares};
use pon_state::PortState;
use pon_units::{AllocId, Frac, Kbps, whole};
use std::alloc::AllocError;

/// The rates of an admitted Alloc-ID in a map, in kbit/s.
#[derive(Clone, Copy, Debug, PartialEq, Eq)]
pub struct RowRates {
    /// The Alloc-ID, 1024 to 16383.
    pub alloc_id: AllocId,
    /// The offered load.
    pub load: Kbps,
    /// The guaranteed rate.
    pub guaranteed: Kbps,
    /// The surplus rate, an exact fraction.
    pub surplus: Frac,
}

impl RowRates {
    /// Returns the whole kbit/s of the surplus rate.
    #[inline]
    pub fn whole_surplus(&self) -> u64
        ensures { result ≡ self.now.surplus.num / self.now.surplus.den }
    {
        whole(self.surplus.num(), self.surplus.den())
    }
}

/// Computes the rates of each admitted Alloc-ID under a certificate, in map order, in the memory of `room`. `demands`
/// are the demands of the state.
///
/// # Errors
///
/// `AllocError` only if memory is refused.
pub fn rates_under(
    room: Vec<RowRates>,
    state: &PortState,
    demands: &[Demand],
    cert: &MapCert,
) -> Result<Vec<RowRates>, AllocError>
    requires admitted { IsAdmitted state.now.rule state.now.gap state.now.roster }
    requires demands { demands.now ≡ demands_of (input_of state.now) }
    requires certified { IsCertified (input_of state.now) cert.now }
    ensures rates { IfOk result (λ found. found.items ≡ rates_of state.now cert.now) }
    ensures within { IfOk result (λ found. All IsWithinLine found.items) }
{
    let loads = state.loads();
    let mut shares = Shares::under(cert);
    let mut found = room;
    found.clear();
    found.reserve(demands.len())?;
    for demand in demands {
        let surplus = shares.next(demand).rate;
        found.push_reserved(RowRates {
            alloc_id: demand.alloc_id,
            load: loads.load_at(found.len(), demand.alloc_id),
            guaranteed: demand.guaranteed,
            surplus,
        });
    }
    Ok(found)
}
