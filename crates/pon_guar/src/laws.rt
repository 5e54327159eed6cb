//! A law of reports, over the definitions alone.

ghost use Rattle.std.specs.Prelude.{List, Option, map, ℕ, ◌≡◌};
ghost use Rattle.pon_units.specs.declared.granted.Granted.{Granted};
ghost use Rattle.pon_guar.specs.AccountReports.{account_reported};
ghost use Rattle.pon_guar.specs.Reports.{after_occupancies};
ghost use Rattle.pon_guar.specs.declared.account.Account.{Account};

/// A report of an ONU is taken account by account: from the since-frame of an account on, the latest of its reports
/// counts.
pub fn reports_go_account_by_account()
    ensures { (granted : ℕ → ℕ) (frame : ℕ) (gs : List Granted)
        (occ : List (Option ℕ)) (book : List Account)
        → after_occupancies granted frame gs occ book
        ≡ map (account_reported granted frame gs occ) book }
{}
