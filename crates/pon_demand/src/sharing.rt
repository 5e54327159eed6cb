//! How the rate that is not guaranteed is shared, class by class.

ghost use Rattle.std.specs.Prelude.{◌≡◌, ◌*◌, ◌<◌, ◌≤◌, ◌++◌, ◌∷◌, [], IfOk, filter, length, map, sum_by, vec_capacity, vec_len};
ghost use Rattle.pon_descr.specs.declared.class.Class.TheVariants.{NonAssured, BestEffort};
ghost use Rattle.pon_admit.specs.Roster.{IsAdmitted};
ghost use Rattle.pon_demand.specs.Sharing.{same_class, surplus};
ghost use Rattle.pon_demand.specs.Demands.{demands_of};

use crate::demand::Demand;
use crate::input::ShareInput;
use pon_cert::{Item, MAX_ITEMS};
use pon_descr::Class;
use pon_units::{AllocId, WORD_RATE};
use std::alloc::{AllocError, Global};

// Computes the sum of the guaranteed rates, in kbit/s.
fn sum_of_guaranteed(demands: &[Demand]) -> u64
    requires { length demands.now ≤ MAX_ITEMS }
    ensures { result ≡ sum_by (λ d. d.guaranteed) demands.now }
{
    let mut sum = 0;
    for demand in demands {
        sum += u64::from(demand.guaranteed.get());
    }
    sum
}

/// Computes the capacity reduced by the guaranteed rates, in kbit/s.
pub(crate) fn surplus_of(input: &ShareInput, demands: &[Demand]) -> u64
    requires admitted { IsAdmitted input.now.rule input.now.gap input.now.roster }
    requires demands { demands.now ≡ demands_of input.now }
    ensures { result ≡ surplus input.now }
{
    WORD_RATE * u64::from(input.roster.capacity().get()) - sum_of_guaranteed(demands)
}

// Returns whether a demand has the class.
fn is_in_class(demand: &Demand, class: Class) -> bool
    ensures { result ≡ same_class demand.now.class class }
{
    demand.class == class
}

// Returns the number of members of a class.
fn member_count(demands: &[Demand], class: Class) -> usize
    ensures { result ≡ length (filter (λ d. same_class d.class class) demands.now) }
{
    demands
        .iter()
        .filter(|demand| is_in_class(demand, class))
        .count()
}

/// The members of a class.
#[derive(Drop)]
pub struct Members {
    /// The Alloc-IDs, in map order.
    pub ids: Vec<AllocId>,
    /// The item of each, with which it shares the surplus of the class.
    pub items: Vec<Item>,
}

impl Members {
    // Makes empty lists with room for this number of members; none has no memory. `Err` only if memory is refused.
    fn with_room(alloc: Global, count: usize) -> Result<Members, AllocError>
        ensures ids { IfOk result (λ m. (m.ids.items ≡ []) × (count ≤ vec_capacity m.ids)) }
        ensures items { IfOk result (λ m. (m.items.items ≡ []) × (count ≤ vec_capacity m.items)) }
    {
        let mut ids = Vec::new(alloc);
        let mut items = Vec::new(alloc);
        if count > 0 {
            ids.reserve(count)?;
            items.reserve(count)?;
        }
        Ok(Members { ids, items })
    }

    // Adds the member of a demand. There must be room for it.
    #[inline]
    fn add(&mut self, demand: &Demand)
        requires ids { vec_len self.old.ids < vec_capacity self.old.ids }
        requires items { vec_len self.old.items < vec_capacity self.old.items }
        ensures ids { self.new.ids.items ≡ self.old.ids.items ++ demand.now.alloc_id ∷ [] }
        ensures items { self.new.items.items ≡ self.old.items.items ++ demand.now.item ∷ [] }
        ensures room_for_ids { vec_capacity self.old.ids ≤ vec_capacity self.new.ids }
        ensures room_for_items { vec_capacity self.old.items ≤ vec_capacity self.new.items }
    {
        self.ids.push_reserved(demand.alloc_id);
        self.items.push_reserved(demand.item);
    }
}

/// The members of the two classes that share surplus.
#[derive(Drop)]
pub(crate) struct BothMembers {
    pub na: Members,
    pub be: Members,
}

/// Collects the members of both classes. `Err` only if memory is refused.
pub(crate) fn both_members(alloc: Global, demands: &[Demand]) -> Result<BothMembers, AllocError>
    ensures na_ids { IfOk result (λ both. both.na.ids.items
        ≡ map (λ d. d.alloc_id) (filter (λ d. same_class d.class NonAssured) demands.now)) }
    ensures na_items { IfOk result (λ both. both.na.items.items
        ≡ map (λ d. d.item) (filter (λ d. same_class d.class NonAssured) demands.now)) }
    ensures be_ids { IfOk result (λ both. both.be.ids.items
        ≡ map (λ d. d.alloc_id) (filter (λ d. same_class d.class BestEffort) demands.now)) }
    ensures be_items { IfOk result (λ both. both.be.items.items
        ≡ map (λ d. d.item) (filter (λ d. same_class d.class BestEffort) demands.now)) }
{
    let mut na = Members::with_room(alloc, member_count(demands, Class::NonAssured))?;
    let mut be = Members::with_room(alloc, member_count(demands, Class::BestEffort))?;
    for demand in demands {
        match demand.class {
            Class::Plain => {}
            Class::NonAssured => na.add(demand),
            Class::BestEffort => be.add(demand),
        }
    }
    Ok(BothMembers { na, be })
}
