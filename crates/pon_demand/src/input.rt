ghost use Rattle.std.specs.Prelude.{◌≡◌};

use pon_admit::Roster;
use pon_guar::Loads;
use std::marker::Model;

/// The input of the shares of a map: the admitted Alloc-IDs, with their rule and the gap before each burst, and
/// their report book.
#[derive(Drop)]
pub struct ShareInput<'a> {
    pub(crate) roster: &'a Roster,
    pub(crate) loads: &'a Loads,
}

impl<'a> Model for ShareInput<'a> {
    ghost use Rattle.pon_demand.specs.Input.{Input};

    ghost Value = { Input };

    ghost view = { λ i. record {
      rule = i.roster.now.rule;
      gap = i.roster.now.gap;
      roster = i.roster.now.rows;
      book = i.loads.now.accounts;
    } };
}

impl<'a> ShareInput<'a> {
    /// Makes the input of the roster and the report book of a port.
    pub fn new(roster: &'a Roster, loads: &'a Loads) -> ShareInput<'a>
        ensures { result ≡ record {
          rule = roster.now.rule;
          gap = roster.now.gap;
          roster = roster.now.rows;
          book = loads.now.accounts;
        } }
    {
        ShareInput { roster, loads }
    }
}
