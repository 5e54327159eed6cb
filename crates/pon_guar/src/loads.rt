ghost use Rattle.std.specs.Prelude.{◌≡◌, IfOk};
ghost use Rattle.pon_guar.specs.Book.{load_of_counted};

use crate::account::{Account, Counted, account_of, add_account, index_near, remove_account};
use crate::counting::{count_report, forget};
use crate::deduction::{deduct_grants, hint_at};
use crate::parts::{LoadsFault, MapParts, in_ascending_order, is_window, restore_window};
use crate::reports::Accepted;
use crate::window::Window;
use pon_descr::Refusal;
use pon_units::{AllocId, BufOcc, FrameNo, Granted, Kbps, OnuId, WORD_RATE};
use std::alloc::{AllocError, Global};
use std::marker::Model;

/// The report book of a port: what each admitted Alloc-ID last reported and was not granted since, and the window,
/// which has the last maps, at most 64, for which reports may still come.
///
/// Contracts see its accounts in ascending Alloc-ID, and its maps in ascending frame.
#[derive(Drop)]
pub struct Loads {
    accounts: Vec<Account>,
    window: Window,
    // Index of the account of each grant of the last map: hints, checked at each use.
    places: Vec<usize>,
}

impl Model for Loads {
    ghost use Rattle.pon_guar.specs.Loads.{Loads};
    ghost use Rattle.pon_guar.specs.Book.{AreRising, alloc_ids};

    ghost Value = { Loads };

    ghost view = { λ l. record { accounts = l.accounts.items; window = l.window } };

    ghost invariant = { λ l. AreRising (alloc_ids l.accounts.items) };
}

// Computes the load of a report, in kbit/s, from its words that are not yet granted.
fn load_of_report(counted: Option<Counted>) -> Kbps
    ensures { result ≡ load_of_counted counted }
{
    let words = match counted {
        None => 0,
        Some(report) => report.words.get(),
    };
    Kbps::new(WORD_RATE as u32 * words).unwrap()
}

impl Loads {
    ghost use Rattle.std.specs.Prelude.{false, None, [], ◌==◌, length, IfErr, MatchResult, OnOk, OnErr};
    ghost use Rattle.std.specs.List.{list_any};
    ghost use Rattle.pon_units.specs.Granted.{AreInMapOrder};
    ghost use Rattle.pon_descr.specs.Checks.{IsTold};
    ghost use Rattle.pon_guar.specs.Book.{account_of, alloc_ids, known_report, load_of};
    ghost use Rattle.pon_guar.specs.Window.{AreConsecutive};
    ghost use Rattle.pon_guar.specs.AcceptedReports.{IsAccepted};
    ghost use Rattle.pon_guar.specs.ReportChecks.{refuses_report};
    ghost use Rattle.pon_guar.specs.Parts.{AreParts, RefusesParts, loads_from};
    ghost use Rattle.pon_guar.specs.Loads.{after_admitted, after_cleared, after_mapped, after_removed, after_reported};

    /// Makes a book with no accounts and an empty window. It allocates no memory; later additions use this allocator.
    pub fn open(alloc: Global) -> Loads
        ensures { result ≡ record { accounts = []; window = [] } }
    {
        Loads {
            accounts: Vec::new(alloc),
            window: Window::open(alloc),
            places: Vec::new(alloc),
        }
    }

    /// Makes the book of these accounts, in any order, and of a window of copies of these maps, the oldest first. A
    /// window has at most 64 maps of consecutive frames, with grants in map order, and with reporters in ascending
    /// ONU-ID, each of which the map polls.
    ///
    /// # Errors
    ///
    /// `Unlawful` exactly when two accounts are of one Alloc-ID or the maps are not a window, unless memory is refused
    /// first. `Memory` only if memory is refused.
    pub fn from_parts(
        alloc: Global,
        accounts: &[Account],
        window: &[MapParts<'_>],
    ) -> Result<Loads, LoadsFault>
        ensures { MatchResult result
            (λ loads. AreParts accounts.now window.now
            × (loads ≡ loads_from accounts.now window.now))
            (RefusesParts accounts.now window.now) }
    {
        if !is_window(window) {
            return Err(LoadsFault::Unlawful);
        }
        let accounts = match in_ascending_order(alloc, accounts)? {
            Some(accounts) => accounts,
            None => return Err(LoadsFault::Unlawful),
        };
        Ok(Loads {
            accounts,
            window: restore_window(alloc, window)?,
            places: Vec::new(alloc),
        })
    }

    /// Makes an equal book, with its own memory. It has no hints, and its window no running sums
    /// ([`Window::try_copy`]).
    ///
    /// # Errors
    ///
    /// `AllocError` only if memory is refused.
    pub fn try_copy(&self, alloc: Global) -> Result<Loads, AllocError>
        ensures { IfOk result (λ loads. loads ≡ self.now) }
    {
        Ok(Loads {
            accounts: Vec::from_slice(alloc, &self.accounts)?,
            window: self.window.try_copy(alloc)?,
            places: Vec::new(alloc),
        })
    }

    /// Offered load of an Alloc-ID in kbit/s: 256 for each word of its counted report that was not granted since. 0 if
    /// no report counts, or the Alloc-ID has no account.
    pub fn load_of(&self, alloc_id: AllocId) -> Kbps
        ensures { result ≡ load_of self.now.accounts alloc_id }
    {
        load_of_report(self.counted(alloc_id))
    }

    /// Offered load of an Alloc-ID, equal to that of [`Loads::load_of`]. It needs no search if the last map has the
    /// Alloc-ID at the index among its grants and the accounts are unchanged since.
    pub fn load_at(&self, index: usize, alloc_id: AllocId) -> Kbps
        ensures { result ≡ load_of self.now.accounts alloc_id }
    {
        let hint = hint_at(&self.places, index);
        match index_near(&self.accounts, hint, alloc_id) {
            None => load_of_report(None),
            Some(place) => load_of_report(self.accounts[place].counted),
        }
    }

    /// Account of an Alloc-ID: the frame from which its reports count, and the report that counts. `None` if it has
    /// none.
    pub fn account(&self, alloc_id: AllocId) -> Option<Account>
        ensures { result ≡ account_of self.now.accounts alloc_id }
    {
        account_of(&self.accounts, alloc_id)
    }

    /// Report of an Alloc-ID that counts; `None` if none does, or the Alloc-ID has no account.
    pub fn counted(&self, alloc_id: AllocId) -> Option<Counted>
        ensures { result ≡ known_report (account_of self.now.accounts alloc_id) }
    {
        match self.account(alloc_id) {
            None => None,
            Some(account) => account.counted,
        }
    }

    /// Window of the last maps, at most 64.
    pub fn window(&self) -> &Window
        ensures { result.now ≡ self.now.window }
    {
        &self.window
    }

    /// Adds an account for an Alloc-ID that has none: its reports count from a frame on.
    ///
    /// # Errors
    ///
    /// `OutOfMemory` if memory is refused; then nothing changes.
    pub fn admitted(&mut self, alloc_id: AllocId, since: FrameNo) -> Result<(), Refusal>
        requires { list_any (λ j. j == alloc_id) (alloc_ids self.old.accounts) ≡ false }
        ensures ok { OnOk result (self.new ≡ after_admitted self.old alloc_id since) }
        ensures refused { IfErr result (IsTold None) }
        ensures err { OnErr result (self.new ≡ self.old) }
    {
        self.accounts.reserve(1)?;
        let counted = None;
        let account = Account {
            alloc_id,
            since,
            counted,
        };
        add_account(&mut self.accounts, account);
        Ok(())
    }

    /// Removes the account of an Alloc-ID, with its report.
    pub fn removed(&mut self, alloc_id: AllocId)
        ensures { self.new ≡ after_removed self.old alloc_id }
    {
        remove_account(&mut self.accounts, alloc_id);
    }

    /// Adds the map of a frame to the window, and drops the oldest if there are then more than 64. Each report that
    /// counts is reduced by what the map grants its Alloc-ID. The grants must be in map order, and the frame must be
    /// the frame of the last map plus 1, or any if the window is empty.
    ///
    /// # Errors
    ///
    /// `OutOfMemory` if memory is refused; then nothing changes.
    pub fn mapped(&mut self, frame: FrameNo, grants: &[Granted]) -> Result<(), Refusal>
        requires next { AreConsecutive frame self.old.window }
        requires map_order { AreInMapOrder grants.now }
        ensures ok { OnOk result (self.new ≡ after_mapped self.old frame grants.now) }
        ensures refused { IfErr result (IsTold None) }
        ensures err { OnErr result (self.new ≡ self.old) }
    {
        let alloc = *self.places.allocator();
        let kept = Vec::from_slice(alloc, grants)?;
        self.add_map(frame, kept)?;
        Ok(())
    }

    /// Adds a map as [`Loads::mapped`] does, and keeps these grants. Returns a vector for the grants of a later map, as
    /// [`Window::add`] does.
    ///
    /// # Errors
    ///
    /// `AllocError` only if memory is refused; then nothing changes.
    pub fn add_map(
        &mut self,
        frame: FrameNo,
        grants: Vec<Granted>,
    ) -> Result<Vec<Granted>, AllocError>
        requires next { AreConsecutive frame self.old.window }
        requires map_order { AreInMapOrder grants.items }
        ensures ok { OnOk result (self.new ≡ after_mapped self.old frame grants.items) }
        ensures err { OnErr result (self.new ≡ self.old) }
    {
        self.places.resize(grants.len(), 0)?;
        let left = self.window.add(frame, grants)?;
        let latest = self.window.latest_grants();
        deduct_grants(&mut self.accounts, latest, &mut self.places);
        Ok(left)
    }

    /// Takes an ONU's report for the map of a frame: one occupancy for each of its structures there, in order, in words
    /// of 4 bytes, `None` if it is garbled. An occupancy counts for its Alloc-ID if its frame is at least the
    /// since-frame and no report of a later frame counts. It is reduced by what was granted from its frame on.
    ///
    /// # Errors
    ///
    /// The first check that refuses the report ([`Window::accept`]), then `OutOfMemory` if memory is refused. On an
    /// error nothing changes.
    pub fn reported(
        &mut self,
        frame: FrameNo,
        onu: OnuId,
        occupancies: &[Option<BufOcc>],
    ) -> Result<(), Refusal>
        ensures ok { OnOk result (self.new ≡ after_reported self.old frame onu occupancies.now) }
        ensures accepted { OnOk result (refuses_report self.old.window frame onu
            (length occupancies.now) ≡ None) }
        ensures refused { IfErr result (IsTold
            (refuses_report self.old.window frame onu (length occupancies.now))) }
        ensures err { OnErr result (self.new ≡ self.old) }
    {
        let report = self.window.accept(frame, onu, occupancies.len())?;
        self.take_report(&report, occupancies)?;
        Ok(())
    }

    /// Takes an accepted report, as [`Loads::reported`] does.
    ///
    /// # Errors
    ///
    /// `AllocError` only if memory is refused; then nothing changes.
    pub fn take_report(
        &mut self,
        report: &Accepted,
        occupancies: &[Option<BufOcc>],
    ) -> Result<(), AllocError>
        requires accepted { IsAccepted self.old.window report.now.frame report.now.onu
            (length occupancies.now) report.now }
        ensures ok { OnOk result (self.new
            ≡ after_reported self.old report.now.frame report.now.onu occupancies.now) }
        ensures err { OnErr result (self.new ≡ self.old) }
    {
        self.window.note_report(report)?;
        let accounts = &mut self.accounts;
        let next = count_report(accounts, &self.places, &self.window, report, occupancies);
        self.window.hint_next(next);
        Ok(())
    }

    /// Drops all reports and all maps of the window; later reports count from a frame on.
    pub fn cleared(&mut self, frame: FrameNo)
        ensures { self.new ≡ after_cleared self.old frame }
    {
        forget(&mut self.accounts, frame);
        self.window.clear();
    }
}
