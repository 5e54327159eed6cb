use pon_descr::Descriptor;
use pon_units::{AllocId, LINE_RATE, MAX_ALLOC_ID, MAX_ONU_ID, MIN_ALLOC_ID, OnuId};

/// An admitted Alloc-ID.
#[derive(Clone, Copy, Debug, PartialEq, Eq)]
pub struct Row {
    /// The ONU that owns it, 0 to 1022.
    pub onu: OnuId,
    /// The Alloc-ID, 1024 to 16383.
    pub alloc_id: AllocId,
    /// Its traffic descriptor, with rates in kbit/s.
    pub descriptor: Descriptor,
}

impl Row {
    ghost use Rattle.std.specs.Prelude.{◌≡◌};
    ghost use Rattle.pon_admit.specs.Roster.{IsInRange};

    /// Makes a row of an ONU, an Alloc-ID and its descriptor.
    pub fn new(onu: OnuId, alloc_id: AllocId, descriptor: Descriptor) -> Row
        ensures row { result ≡ record { onu = onu; alloc_id = alloc_id; descriptor = descriptor } }
        ensures in_range { IsInRange result }
    {
        let row = Row {
            onu,
            alloc_id,
            descriptor,
        };
        row.prove_in_range();
        row
    }

    /// A row is in range, since the types of its fields are.
    pub(crate) fn prove_in_range(&self)
        ensures { IsInRange self.now }
    {
        let alloc_id = self.alloc_id.get();
        prove!(self.onu.get() <= MAX_ONU_ID);
        prove!(alloc_id >= MIN_ALLOC_ID && alloc_id <= MAX_ALLOC_ID);
        prove!(u64::from(self.descriptor.promised().get()) <= LINE_RATE);
    }
}
