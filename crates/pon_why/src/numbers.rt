//! What a map gives to each admitted Alloc-ID, with each number that it follows from.

ghost use Rattle.std.specs.Prelude.{◌≡◌, IfOk};
ghost use Rattle.pon_admit.specs.Roster.{IsAdmitted};
ghost use Rattle.pon_demand.specs.Carries.{AreCarries};
ghost use Rattle.pon_demand.specs.Demands.{demands_of};
ghost use Rattle.pon_demand.specs.Sharing.{IsCertified};
ghost use Rattle.pon_state.specs.State.{input_of};
ghost use Rattle.pon_why.specs.Explanations.{explanations_of, numbers_of};
ghost use Rattle.pon_why.specs.Rates.{IsWithinLine};

use crate::rates::{RowRates, rates_under};
use pon_admit::Row;
use pon_cert::{Item, MapCert};
use pon_demand::Demand;
use pon_guar::Counted;
use pon_state::PortState;
use pon_units::{Frac, Kbps};
use std::alloc::{AllocError, Global};

/// What a map gives to an admitted Alloc-ID, with each number that it follows from. Rates are in kbit/s.
#[derive(Clone, Copy, Debug, PartialEq, Eq)]
pub struct Explanation {
    /// The ONU, the Alloc-ID and its descriptor.
    pub row: Row,
    /// The counted report: its frame, and its words of 4 bytes that were not granted since; `None` if no report counts.
    pub counted: Option<Counted>,
    /// The offered load.
    pub load: Kbps,
    /// The guaranteed rate.
    pub guaranteed: Kbps,
    /// The weight, and the cap: the greatest surplus rate that the load can use.
    pub item: Item,
    /// The surplus rate, an exact fraction.
    pub surplus: Frac,
    /// What the map before left, 0 to 255.
    pub carry: u8,
    /// What the map owes: the carry, the guaranteed rate and the whole kbit/s of the surplus rate.
    pub owed: u64,
}

// Puts the numbers of a row together.
fn explain_row(
    row: &Row,
    item: &Item,
    counted: &Option<Counted>,
    rates: &RowRates,
    carry: u8,
) -> Explanation
    requires { IsWithinLine rates.now }
    ensures { result ≡ numbers_of row.now item.now counted.now rates.now carry }
{
    let whole_rates = u64::from(rates.guaranteed.get()) + rates.whole_surplus();
    Explanation {
        row: *row,
        counted: *counted,
        load: rates.load,
        guaranteed: rates.guaranteed,
        item: *item,
        surplus: rates.surplus,
        carry,
        owed: u64::from(carry) + whole_rates,
    }
}

/// Computes the numbers of each admitted Alloc-ID under a certificate, in map order. `demands` are the demands of the
/// state.
///
/// # Errors
///
/// `AllocError` only if memory is refused.
pub fn explain(
    alloc: Global,
    state: &PortState,
    demands: &[Demand],
    cert: &MapCert,
) -> Result<Vec<Explanation>, AllocError>
    requires admitted { IsAdmitted state.now.rule state.now.gap state.now.roster }
    requires carries { AreCarries state.now.rule state.now.roster state.now.carries }
    requires demands { demands.now ≡ demands_of (input_of state.now) }
    requires certified { IsCertified (input_of state.now) cert.now }
    ensures { IfOk result (λ found. found.items ≡ explanations_of state.now cert.now) }
{
    let rates = rates_under(Vec::new(alloc), state, demands, cert)?;
    let carries = state.carries();
    let mut found = Vec::with_capacity(alloc, rates.len())?;
    for (place, row) in state.roster().rows().iter().enumerate() {
        let counted = state.loads().counted(row.alloc_id);
        found.push_reserved(explain_row(
            row,
            &demands[place].item,
            &counted,
            &rates[place],
            carries[place],
        ));
    }
    Ok(found)
}
