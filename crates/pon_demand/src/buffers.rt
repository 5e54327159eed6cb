use crate::demand::Demand;
use crate::grants::Grants;
use std::alloc::Global;
use std::mem;

/// Memory for the demands, the grants and the carries of maps, kept from one map to the next, so that it is not
/// allocated for each.
#[derive(Drop)]
pub struct MapBuffers {
    demands: Vec<Demand>,
    grants: Grants,
}

impl MapBuffers {
    /// Makes buffers that have no memory. Memory is allocated by this allocator when it is needed.
    pub fn open(alloc: Global) -> MapBuffers {
        MapBuffers {
            demands: Vec::new(alloc),
            grants: Grants::open(alloc),
        }
    }

    /// Keeps the lists of an earlier map, whose memory is for the grants and carries of the next one.
    pub fn keep_grants(&mut self, grants: Grants) {
        self.grants = grants;
    }

    /// Keeps the demands of an earlier map, whose memory is for the demands of the next one.
    pub fn keep_demands(&mut self, demands: Vec<Demand>) {
        self.demands = demands;
    }

    /// Takes the lists for grants and carries out.
    pub(crate) fn take_grants(&mut self, alloc: Global) -> Grants {
        mem::replace(&mut self.grants, Grants::open(alloc))
    }

    /// Takes the vector for demands out.
    pub(crate) fn take_demands(&mut self, alloc: Global) -> Vec<Demand> {
        mem::replace(&mut self.demands, Vec::new(alloc))
    }
}
