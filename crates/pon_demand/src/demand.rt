//! The demands of the admitted Alloc-IDs on a map.

ghost use Rattle.std.specs.Prelude.{◌≡◌, IfOk};
ghost use Rattle.pon_descr.specs.Descriptor.{Descriptor};
ghost use Rattle.pon_demand.specs.Sharing.{weight_in};
ghost use Rattle.pon_demand.specs.Demands.{demand_of, demands_of};

use crate::input::ShareInput;
use pon_admit::Row;
use pon_cert::Item;
use pon_descr::{Class, Descriptor};
use pon_guar::{cap, guaranteed};
use pon_units::{AllocId, Kbps, OnuId};
use std::alloc::AllocError;

/// The demand of an admitted Alloc-ID on a map.
#[derive(Clone, Copy, Debug, PartialEq, Eq)]
pub struct Demand {
    /// The ONU that owns the Alloc-ID, 0 to 1022.
    pub onu: OnuId,
    /// The Alloc-ID, 1024 to 16383.
    pub alloc_id: AllocId,
    /// Its class.
    pub class: Class,
    /// Its guaranteed rate in kbit/s.
    pub guaranteed: Kbps,
    /// The weight and the cap, in kbit/s, with which it shares the surplus of the class.
    pub item: Item,
}

// Computes the weight of a descriptor in its class, in kbit/s.
fn weight(descriptor: &Descriptor) -> u64
    ensures { result ≡ weight_in descriptor.now.class descriptor.now }
{
    let promised = descriptor.promised();
    prove!(promised <= descriptor.max());
    let weight = match descriptor.class() {
        Class::BestEffort => descriptor.max().get() - promised.get(),
        Class::Plain | Class::NonAssured => promised.get(),
    };
    u64::from(weight)
}

// Computes the demand of a row; the index is that of the row in map order.
fn demand_of(input: &ShareInput, index: usize, row: &Row) -> Demand
    ensures { result ≡ demand_of input.now row.now }
{
    let load = input.loads.load_at(index, row.alloc_id);
    let item = Item {
        weight: weight(&row.descriptor),
        cap: u64::from(cap(&row.descriptor, load).get()),
    };
    Demand {
        onu: row.onu,
        alloc_id: row.alloc_id,
        class: row.descriptor.class(),
        guaranteed: guaranteed(&row.descriptor, load),
        item,
    }
}

/// Computes the demand of each admitted Alloc-ID, in map order, in the memory of `room`. `Err` only if memory is
/// refused.
pub(crate) fn demands_of(room: Vec<Demand>, input: &ShareInput) -> Result<Vec<Demand>, AllocError>
    ensures { IfOk result (λ found. found.items ≡ demands_of input.now) }
{
    let mut found = room;
    found.clear();
    found.reserve(input.roster.rows().len())?;
    for row in input.roster.rows() {
        found.push_reserved(demand_of(input, found.len(), row));
    }
    Ok(found)
}
