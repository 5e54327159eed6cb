// The roster of a port, and its getters.
ghost use Rattle.std.specs.Prelude.{◌≡◌, ◌≤◌, ◌==◌, [], count_by, length, position, IfOk};
ghost use Rattle.pon_admit.specs.Roster.{IsAdmitted, capacity, comes_before, onus_of, promised_sum, rule_in_force};

use crate::row::Row;
use crate::rule::Rule;
use crate::search::{look_through, place_of};
use crate::sums::{overhead, rate, words};
use pon_units::{AllocId, FRAME_WORDS, Gap, Kbps, LINE_RATE, MAX_ONUS, Words};
use std::alloc::{AllocError, Global};
use std::marker::Model;

mod steps;

/// Rule of a roster that is opened without naming a rule.
pub const RULE_IN_FORCE: Rule = Rule::CarryRemainders;

/// The admitted Alloc-IDs of a port in map order, at all times an admitted set under its rule: at most 512 Alloc-IDs
/// (256 under [`Rule::DropRemainders`]) of at most 128 ONUs, at most 16 of one ONU, no Alloc-ID twice, and promised
/// rates that fit the words that the overhead leaves of a frame.
#[derive(Drop)]
pub struct Roster {
    rule: Rule,
    gap: Gap,
    rows: Vec<Row>,
    onus: usize,
    promised: Kbps,
}

impl Model for Roster {
    ghost use Rattle.pon_admit.specs.Roster.{Roster};
    ghost use Rattle.pon_admit.specs.Kept.{IsKeptRoster};

    ghost Value = { Roster };

    ghost view = { λ a. record { rule = a.rule; gap = a.gap; rows = a.rows.items } };

    ghost invariant = { λ a. IsKeptRoster a.rule a.gap a.onus a.promised a.rows.items };
}

impl Roster {
    /// Opens a roster with no rows, for bursts with this gap before each, under the rule in force,
    /// [`Rule::CarryRemainders`]. It allocates memory for 512 rows.
    ///
    /// # Errors
    ///
    /// `AllocError` if that memory is refused.
    pub fn open(alloc: Global, gap: Gap) -> Result<Roster, AllocError>
        ensures { IfOk result
            (λ roster. roster ≡ record { rule = rule_in_force; gap = gap; rows = [] }) }
    {
        Roster::open_with(alloc, gap, RULE_IN_FORCE)
    }

    /// Opens a roster with no rows, for bursts with this gap before each, under the given rule. It allocates memory for
    /// the maximum number of rows of the rule.
    ///
    /// # Errors
    ///
    /// `AllocError` if that memory is refused.
    pub fn open_with(alloc: Global, gap: Gap, rule: Rule) -> Result<Roster, AllocError>
        ensures { IfOk result (λ roster. roster ≡ record { rule = rule; gap = gap; rows = [] }) }
    {
        let rows = Vec::with_capacity(alloc, rule.max_allocs())?;
        Ok(Roster {
            rule,
            gap,
            rows,
            onus: 0,
            promised: rate(0),
        })
    }

    /// Makes an equal roster. It allocates memory for the rows.
    ///
    /// # Errors
    ///
    /// `AllocError` if that memory is refused.
    pub fn try_copy(&self, alloc: Global) -> Result<Roster, AllocError>
        ensures { IfOk result (λ roster. roster ≡ self.now) }
    {
        let rows = Vec::from_slice(alloc, &self.rows)?;
        Ok(Roster {
            rule: self.rule,
            gap: self.gap,
            rows,
            onus: self.onus,
            promised: self.promised,
        })
    }

    /// Rule under which the rows are admitted.
    pub fn rule(&self) -> Rule
        ensures { result ≡ self.now.rule }
    {
        self.rule
    }

    /// Gap before each burst, in words of 4 bytes, 1 to 256.
    pub fn gap(&self) -> Gap
        ensures { result ≡ self.now.gap }
    {
        self.gap
    }

    /// Rows in map order, at most as many as the rule allows.
    pub fn rows(&self) -> &[Row]
        ensures value { result.now ≡ self.now.rows }
        ensures admitted { IsAdmitted self.now.rule self.now.gap self.now.rows }
    {
        &self.rows
    }

    /// Number of ONUs that own an Alloc-ID, 0 to 128.
    pub fn onus(&self) -> usize
        ensures value { result ≡ length (onus_of self.now.rows) }
        ensures range { result ≤ MAX_ONUS }
    {
        self.onus
    }

    /// Number of rows that come before a row in map order: the index that it has once it is admitted.
    pub fn place_for(&self, row: &Row) -> usize
        ensures { result ≡ count_by (λ s. comes_before s row.now) self.now.rows }
    {
        look_through(&self.rows, row).place
    }

    /// Index of the row of an Alloc-ID; `None` if it is not admitted.
    pub fn place_of(&self, alloc_id: AllocId) -> Option<usize>
        ensures { result ≡ position (λ r. r.alloc_id == alloc_id) self.now.rows }
    {
        place_of(&self.rows, alloc_id)
    }

    /// Words of a frame that gaps, headers, trailers and reports leave for payload, 0 to 9,720.
    pub fn capacity(&self) -> Words
        ensures value { result ≡ capacity self.now.rule self.now.gap self.now.rows }
        ensures range { result ≤ FRAME_WORDS }
    {
        words(usize::from(FRAME_WORDS) - overhead(self.rule, self.gap, self.onus, self.rows.len()))
    }

    /// Sum of the fixed and assured rates of all rows, 0 to 2,488,320 kbit/s.
    pub fn guaranteed_sum(&self) -> Kbps
        ensures value { result ≡ promised_sum self.now.rows }
        ensures range { result ≤ LINE_RATE }
    {
        self.promised
    }
}
