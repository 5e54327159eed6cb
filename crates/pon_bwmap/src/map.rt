use crate::alloc::Alloc;
use crate::fault::MapFault;
use crate::rules::{prove_ranges, rows_fault};
use std::alloc::{AllocError, Global};
use std::marker::Model;

/// A bandwidth map: at most 512 allocation structures, of which the first has a start, each start is at most 9,719, and
/// no series (a structure with a start and those after it without one) is longer than 16.
#[derive(Debug, Drop)]
pub struct Map {
    rows: Vec<Alloc>,
}

impl Model for Map {
    ghost use Rattle.std.specs.Prelude.{List, All};
    ghost use Rattle.pon_bwmap.specs.Alloc.{Alloc};
    ghost use Rattle.pon_bwmap.specs.MapReading.{FitsStructure};
    ghost use Rattle.pon_bwmap.specs.MapRules.{IsMap};

    ghost Value = { List Alloc };

    ghost view = { λ m. m.rows.items };

    ghost invariant = { λ m. IsMap m.rows.items × All FitsStructure m.rows.items };
}

impl PartialEq for Map {
    ghost use Rattle.std.specs.Cmp.{partial_equiv_from_equiv};
    ghost use Rattle.std.specs.Cmp.Lexicographic.{pointwise, lists_equiv};
    ghost use Rattle.pon_bwmap.specs.Alloc.{structure_eq, structure_equiv};

    ghost eq = { pointwise structure_eq };

    ghost laws = { partial_equiv_from_equiv (lists_equiv structure_equiv) };

    fn eq(&self, other: &Map) -> bool {
        self.rows() == other.rows()
    }
}

impl Eq for Map {
    ghost use Rattle.std.specs.Cmp.Lexicographic.{lists_equiv};
    ghost use Rattle.pon_bwmap.specs.Alloc.{structure_equiv};

    ghost laws = { lists_equiv structure_equiv };
}

impl Map {
    ghost use Rattle.std.specs.Prelude.{◌≡◌, ◌↔◌, All, IsOk, IfOk, IfErr};
    ghost use Rattle.pon_bwmap.specs.MapReading.{FitsStructure};
    ghost use Rattle.pon_bwmap.specs.MapRules.{IsMap, IsRowsFault};

    /// Makes a map of these structures. It allocates no memory.
    ///
    /// # Errors
    ///
    /// The structures with the first fault: `TooMany`, or `SeriesStart`, `StartRange` or `SeriesLong` of the first
    /// structure that breaks a rule. A start of 65,535 is a `StartRange`.
    pub fn from_rows(rows: Vec<Alloc>) -> Result<Map, (Vec<Alloc>, MapFault)>
        ensures made { IsOk result ↔ IsMap rows.items }
        ensures ok { IfOk result (λ map. map ≡ rows.items) }
        ensures handed_back { IfErr result (λ e. e.0.items ≡ rows.items) }
        ensures first_fault { IfErr result (λ e. IsRowsFault rows.items e.1) }
    {
        match rows_fault(&rows) {
            None => Ok(Map::of_rows(rows)),
            Some(fault) => Err((rows, fault)),
        }
    }

    /// Makes a map of structures that keep the rules of maps.
    pub fn of_rows(rows: Vec<Alloc>) -> Map
        requires { IsMap rows.items }
        ensures { result ≡ rows.items }
    {
        prove_ranges(&rows);
        Map { rows }
    }

    /// Structures, in order. They keep the rules of maps, and each fits its ranges.
    pub fn rows(&self) -> &[Alloc]
        ensures rows { result.now ≡ self.now }
        ensures map { IsMap result.now }
        ensures fits { All FitsStructure result.now }
    {
        self.rows.as_slice()
    }

    /// Makes an equal map.
    ///
    /// # Errors
    ///
    /// `AllocError` if memory is refused.
    pub fn try_copy(&self, alloc: Global) -> Result<Map, AllocError>
        ensures { IfOk result (λ copy. copy ≡ self.now) }
    {
        let rows = Vec::from_slice(alloc, &self.rows)?;
        Ok(Map { rows })
    }
}
