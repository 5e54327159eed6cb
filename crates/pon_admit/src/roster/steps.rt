// The steps of a roster (admissions, changes and removals), and their refusals.
ghost use Rattle.std.specs.Prelude.{◌≡◌, Some, None, IfErr, OnOk, OnErr};
ghost use Rattle.pon_descr.specs.Checks.{IsTold};
ghost use Rattle.pon_admit.specs.Roster.{refuses_admit, refuses_change, refuses_remove, with_descriptor, with_row, without};

use super::Roster;
use crate::row::Row;
use crate::search::{count_owned, look_through, place_of};
use crate::sums::{fits, rate};
use pon_descr::{Descriptor, Refusal};
use pon_units::{AllocId, MAX_ONUS, MAX_SERIES, OnuId};
use std::alloc::AllocError;

impl Roster {
    /// Returns the first refusal of an admission, except `OutOfMemory`: `AllocTaken` (the Alloc-ID is admitted, for
    /// whatever ONU), `TooManyAllocs` (there are as many rows as the rule allows), `TooManyOnus` (128 other ONUs own
    /// rows), `SeriesFull` (the ONU owns 16 rows) or `Capacity` (the set with the row would not fit a frame).
    pub fn admit_refusal(&self, row: &Row) -> Option<Refusal>
        ensures { result ≡ refuses_admit self.now.rule self.now.gap self.now.rows row.now }
    {
        let seen = look_through(&self.rows, row);
        let allocs = self.rows.len();
        let most = self.rule.max_allocs();
        if seen.taken {
            return Some(Refusal::AllocTaken);
        }
        if allocs >= most {
            return Some(Refusal::TooManyAllocs);
        }
        let onus = self.onus + usize::from(seen.owned == 0);
        if onus > MAX_ONUS {
            return Some(Refusal::TooManyOnus);
        }
        if seen.owned >= MAX_SERIES {
            return Some(Refusal::SeriesFull);
        }
        let promised = rate(self.promised.get() + row.descriptor.promised().get());
        if !fits(self.rule, self.gap, onus, allocs + 1, promised) {
            return Some(Refusal::Capacity);
        }
        None
    }

    /// Returns the first refusal of a new descriptor: `NoSuchAlloc` (the Alloc-ID is not admitted) or `Capacity` (the
    /// set with the descriptor would not fit a frame).
    pub fn change_refusal(&self, alloc_id: AllocId, descriptor: &Descriptor) -> Option<Refusal>
        ensures { result ≡ refuses_change self.now.rule self.now.gap self.now.rows alloc_id
            descriptor.now }
    {
        let Some(place) = place_of(&self.rows, alloc_id) else {
            return Some(Refusal::NoSuchAlloc);
        };
        let former = self.rows[place].descriptor.promised();
        let promised = rate(self.promised.get() - former.get() + descriptor.promised().get());
        if !fits(self.rule, self.gap, self.onus, self.rows.len(), promised) {
            return Some(Refusal::Capacity);
        }
        None
    }

    /// Returns the refusal of a removal: `NoSuchAlloc` if the Alloc-ID is not admitted.
    pub fn remove_refusal(&self, alloc_id: AllocId) -> Option<Refusal>
        ensures { result ≡ refuses_remove self.now.rows alloc_id }
    {
        match place_of(&self.rows, alloc_id) {
            Some(_) => None,
            None => Some(Refusal::NoSuchAlloc),
        }
    }

    /// Inserts a row that no check refuses, at its place in map order.
    ///
    /// # Errors
    ///
    /// `AllocError` only if memory is refused; then the roster is unchanged.
    pub fn take_row(&mut self, row: Row) -> Result<(), AllocError>
        requires accepted { refuses_admit self.old.rule self.old.gap self.old.rows row ≡ None }
        ensures ok { OnOk result
            (self.new ≡ record {
              rule = self.old.rule;
              gap = self.old.gap;
              rows = with_row row self.old.rows;
            }) }
        ensures err { OnErr result (self.new ≡ self.old) }
    {
        row.prove_in_range();
        let seen = look_through(&self.rows, &row);
        let promised = rate(self.promised.get() + row.descriptor.promised().get());
        self.rows.insert(seen.place, row)?;
        self.onus += usize::from(seen.owned == 0);
        self.promised = promised;
        Ok(())
    }

    /// Replaces the descriptor of an Alloc-ID by one that no check refuses. Its row keeps its place.
    pub fn take_descriptor(&mut self, alloc_id: AllocId, descriptor: Descriptor)
        requires accepted { refuses_change self.old.rule self.old.gap self.old.rows alloc_id
            descriptor ≡ None }
        ensures { self.new ≡ record {
          rule = self.old.rule;
          gap = self.old.gap;
          rows = with_descriptor alloc_id descriptor self.old.rows;
        } }
    {
        let Some(place) = place_of(&self.rows, alloc_id) else {
            unreachable!()
        };
        let former = self.rows[place].descriptor.promised();
        let promised = rate(self.promised.get() - former.get() + descriptor.promised().get());
        self.rows[place].descriptor = descriptor;
        self.promised = promised;
    }

    /// Removes an admitted Alloc-ID.
    pub fn take_removal(&mut self, alloc_id: AllocId)
        requires admitted { refuses_remove self.old.rows alloc_id ≡ None }
        ensures { self.new ≡ record {
          rule = self.old.rule;
          gap = self.old.gap;
          rows = without alloc_id self.old.rows;
        } }
    {
        let Some(place) = place_of(&self.rows, alloc_id) else {
            unreachable!()
        };
        let row = self.rows[place];
        let alone = count_owned(&self.rows, row.onu) == 1;
        let promised = rate(self.promised.get() - row.descriptor.promised().get());
        self.rows.remove(place);
        self.onus -= usize::from(alone);
        self.promised = promised;
    }

    /// Inserts a row at its place in map order.
    ///
    /// # Errors
    ///
    /// [`Roster::admit_refusal`] if that is a refusal, otherwise `OutOfMemory` if the rows cannot grow. On an error the
    /// roster is unchanged.
    pub fn admit(
        &mut self,
        onu: OnuId,
        alloc_id: AllocId,
        descriptor: Descriptor,
    ) -> Result<(), Refusal>
        ensures ok { OnOk result
            (self.new ≡ record {
              rule = self.old.rule;
              gap = self.old.gap;
              rows = with_row
                  (record { onu = onu; alloc_id = alloc_id; descriptor = descriptor })
                  self.old.rows;
            }) }
        ensures accepted { OnOk result (refuses_admit self.old.rule self.old.gap self.old.rows
            (record { onu = onu; alloc_id = alloc_id; descriptor = descriptor }) ≡ None) }
        ensures refused { IfErr result (λ told. IsTold
            (refuses_admit self.old.rule self.old.gap self.old.rows
            (record { onu = onu; alloc_id = alloc_id; descriptor = descriptor })) told) }
        ensures err { OnErr result (self.new ≡ self.old) }
    {
        let row = Row::new(onu, alloc_id, descriptor);
        if let Some(refusal) = self.admit_refusal(&row) {
            return Err(refusal);
        }
        self.take_row(row)?;
        Ok(())
    }

    /// Replaces the descriptor of an Alloc-ID. Its row keeps its place. It allocates no memory.
    ///
    /// # Errors
    ///
    /// [`Roster::change_refusal`]; then the roster is unchanged.
    pub fn change(&mut self, alloc_id: AllocId, descriptor: Descriptor) -> Result<(), Refusal>
        ensures ok { OnOk result
            (self.new ≡ record {
              rule = self.old.rule;
              gap = self.old.gap;
              rows = with_descriptor alloc_id descriptor self.old.rows;
            }) }
        ensures accepted { OnOk result
            (refuses_change self.old.rule self.old.gap self.old.rows alloc_id descriptor ≡ None) }
        ensures refused { IfErr result
            (λ told. refuses_change self.old.rule self.old.gap self.old.rows alloc_id descriptor
            ≡ Some told) }
        ensures err { OnErr result (self.new ≡ self.old) }
    {
        if let Some(refusal) = self.change_refusal(alloc_id, &descriptor) {
            return Err(refusal);
        }
        self.take_descriptor(alloc_id, descriptor);
        Ok(())
    }

    /// Removes an Alloc-ID. It allocates no memory.
    ///
    /// # Errors
    ///
    /// [`Roster::remove_refusal`]; then the roster is unchanged.
    pub fn remove(&mut self, alloc_id: AllocId) -> Result<(), Refusal>
        ensures ok { OnOk result
            (self.new ≡ record {
              rule = self.old.rule;
              gap = self.old.gap;
              rows = without alloc_id self.old.rows;
            }) }
        ensures accepted { OnOk result (refuses_remove self.old.rows alloc_id ≡ None) }
        ensures refused { IfErr result (λ told. refuses_remove self.old.rows alloc_id ≡ Some told) }
        ensures err { OnErr result (self.new ≡ self.old) }
    {
        if let Some(refusal) = self.remove_refusal(alloc_id) {
            return Err(refusal);
        }
        self.take_removal(alloc_id);
        Ok(())
    }
}
