ghost use Rattle.std.specs.Prelude.{◌≡◌, IfOk};

use pon_admit::{PortCfg, Roster};
use pon_descr::Cause;
use pon_guar::Loads;
use pon_units::{AllocId, FrameNo, Profile};
use std::alloc::{AllocError, Global};
use std::marker::Model;

/// The state of a port: rule, configuration, next frame, cause of failure, roster, report book and window, and what the
/// last map left to each Alloc-ID.
#[derive(Drop)]
pub struct PortState {
    pub(crate) profile: Profile,
    pub(crate) next: FrameNo,
    pub(crate) cause: Option<Cause>,
    pub(crate) taken_before: u64,
    pub(crate) roster: Roster,
    pub(crate) loads: Loads,
    // What the last map left to each row, in map order, in kbit/s.
    pub(crate) carries: Vec<u8>,
}

impl Model for PortState {
    ghost use Rattle.pon_state.specs.State.{State};

    ghost Value = { State };

    ghost view = { λ a. record {
      rule = a.roster.rule;
      gap = a.roster.gap;
      profile = a.profile;
      next = a.next;
      cause = a.cause;
      taken_before = a.taken_before;
      roster = a.roster.rows;
      book = a.loads.accounts;
      carries = a.carries.items;
      window = a.loads.window;
    } };
}

impl PortState {
    ghost use Rattle.std.specs.Prelude.{◌≤◌, IfSome};
    ghost use Rattle.pon_admit.specs.Roster.{max_carry};
    ghost use Rattle.pon_demand.specs.Carries.{AreCarries};
    ghost use Rattle.pon_state.specs.State.{carry_of, just_opened};

    /// Makes the state of a port just opened: no Alloc-ID, the line up, and `first` as its next frame.
    ///
    /// # Errors
    ///
    /// `AllocError` only if memory is refused.
    pub fn open(alloc: Global, cfg: &PortCfg, first: FrameNo) -> Result<PortState, AllocError>
        ensures { IfOk result (λ state. state ≡ just_opened cfg.now.gap cfg.now.profile first) }
    {
        Ok(PortState {
            profile: cfg.profile,
            next: first,
            cause: None,
            taken_before: 0,
            roster: Roster::open(alloc, cfg.gap)?,
            loads: Loads::open(alloc),
            carries: Vec::new(alloc),
        })
    }

    /// Makes an equal state.
    ///
    /// # Errors
    ///
    /// `AllocError` only if memory is refused.
    pub fn try_copy(&self, alloc: Global) -> Result<PortState, AllocError>
        ensures { IfOk result (λ state. state ≡ self.now) }
    {
        Ok(PortState {
            profile: self.profile,
            next: self.next,
            cause: self.cause,
            taken_before: self.taken_before,
            roster: self.roster.try_copy(alloc)?,
            loads: self.loads.try_copy(alloc)?,
            carries: Vec::from_slice(alloc, &self.carries)?,
        })
    }

    /// The configuration that the port was opened with.
    pub fn cfg(&self) -> PortCfg
        ensures gap { result.gap ≡ self.now.gap }
        ensures profile { result.profile ≡ self.now.profile }
    {
        PortCfg {
            gap: self.roster.gap(),
            profile: self.profile,
        }
    }

    /// The admitted Alloc-IDs, with their rule and the gap before each burst.
    pub fn roster(&self) -> &Roster
        ensures rule { result.now.rule ≡ self.now.rule }
        ensures gap { result.now.gap ≡ self.now.gap }
        ensures rows { result.now.rows ≡ self.now.roster }
    {
        &self.roster
    }

    /// What the last map left to an Alloc-ID, in kbit/s, 0 to 255, always 0 under the rule that carries nothing; `None`
    /// if it is not admitted. It searches the rows.
    pub fn carry(&self, alloc_id: AllocId) -> Option<u8>
        requires { AreCarries self.now.rule self.now.roster self.now.carries }
        ensures value { result ≡ carry_of self.now alloc_id }
        ensures range { IfSome result (λ carry. carry ≤ max_carry self.now.rule) }
    {
        let place = self.roster.place_of(alloc_id)?;
        Some(self.carries[place])
    }

    /// The frame of the next map.
    pub fn next_frame(&self) -> FrameNo
        ensures { result ≡ self.now.next }
    {
        self.next
    }

    /// The report book: the counted report of each Alloc-ID, less what was granted since, and the last maps.
    pub fn loads(&self) -> &Loads
        ensures accounts { result.now.accounts ≡ self.now.book }
        ensures window { result.now.window ≡ self.now.window }
    {
        &self.loads
    }

    /// What the last map left to each row of the roster, in map order, in kbit/s: 0 under rule one, 0 to 255 under rule
    /// two.
    pub fn carries(&self) -> &[u8]
        ensures { result.now ≡ self.now.carries }
    {
        &self.carries
    }

    /// The cause of the line failure, or `None` if the line is up.
    pub fn cause(&self) -> Option<Cause>
        ensures { result ≡ self.now.cause }
    {
        self.cause
    }

    /// The number of entries taken before this state, over all chapters.
    pub fn taken_before(&self) -> u64
        ensures { result ≡ self.now.taken_before }
    {
        self.taken_before
    }
}
