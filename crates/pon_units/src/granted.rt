use crate::amount::Words;
use crate::identity::{AllocId, OnuId};

/// The grant of a map to an Alloc-ID.
#[derive(Clone, Copy, Debug, PartialEq, Eq)]
pub struct Granted {
    /// The ONU that owns the Alloc-ID, 0 to 1022.
    pub onu: OnuId,
    /// The Alloc-ID, 1024 to 16383.
    pub alloc_id: AllocId,
    /// Its payload words of 4 bytes in the map's frame, without the word of its report: 0 to 9,720.
    pub words: Words,
}
