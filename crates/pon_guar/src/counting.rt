//! Reports taken into the accounts.

ghost use Rattle.std.specs.Prelude.{◌≡◌, ◌≤◌, ◌==◌, drop, filter, length, map, sum_by};
ghost use Rattle.pon_guar.specs.Window.{IsLawfulMap, IsPlaceOf, grants_at, words_to, words_to_from};
ghost use Rattle.pon_guar.specs.Book.{AreRising, alloc_ids};
ghost use Rattle.pon_guar.specs.Reports.{after_occupancies, counting, taking};
ghost use Rattle.pon_guar.specs.Loads.{afresh};

use crate::account::{Account, Counted, index_near};
use crate::deduction::{hint_at, words_left};
use crate::map::WindowMap;
use crate::reports::Accepted;
use crate::window::Window;
use pon_units::{AllocId, BufOcc, FrameNo};

// Returns an account after a report: the report counts if its frame is at least `since` and no report of a later frame
// counts.
fn with_report(account: Account, report: Counted) -> Account
    ensures { result ≡ taking report account }
{
    if report.frame < account.since {
        return account;
    }
    let Account {
        alloc_id,
        since,
        counted,
    } = account;
    let counted = match counted {
        Some(other) if report.frame < other.frame => Some(other),
        _ => Some(report),
    };
    Account {
        alloc_id,
        since,
        counted,
    }
}

// Counts a report in the account of its Alloc-ID, if there is one. The account is found with no search if the hint is
// its index.
fn count(accounts: &mut [Account], hint: usize, alloc_id: AllocId, report: Counted)
    requires { AreRising (alloc_ids accounts.old) }
    ensures { accounts.new ≡ counting alloc_id report accounts.old }
{
    match index_near(accounts, hint, alloc_id) {
        None => {}
        Some(place) => accounts[place] = with_report(accounts[place], report),
    }
}

/// Counts an accepted report: each occupancy reduced by what the maps from that of the report on granted. `places` has a
/// hint for the index of the account of each grant of a map. Returns the index after the grants of the ONU in the map,
/// where the next reporter's may begin.
pub(crate) fn count_report(
    accounts: &mut [Account],
    places: &[usize],
    window: &Window,
    report: &Accepted,
    occupancies: &[Option<BufOcc>],
) -> usize
    requires rising { AreRising (alloc_ids accounts.old) }
    requires there { IsPlaceOf report.now.frame window.now report.now.map }
    ensures { accounts.new ≡ after_occupancies
        (λ i. words_to_from report.now.onu i report.now.frame window.now) report.now.frame
        (grants_at report.now.frame report.now.onu window.now) occupancies.now accounts.old }
{
    let Accepted {
        frame,
        onu,
        map: place,
        first,
    } = *report;
    let maps = window.maps();
    let series = maps[place].series(first, onu);
    let mut index = series.first;
    for (granted, occupancy) in series.grants.iter().zip(occupancies) {
        if let Some(reported) = *occupancy {
            let granted_since = window.words_since(place, index, onu, granted.alloc_id);
            let words = words_left(reported, granted_since);
            let hint = hint_at(places, index);
            count(accounts, hint, granted.alloc_id, Counted { frame, words });
        }
        index = index.wrapping_add(1);
    }
    index
}

/// Drops the reports that count; later reports count from a frame on.
pub(crate) fn forget(accounts: &mut [Account], frame: FrameNo)
    ensures { accounts.new ≡ map (afresh frame) accounts.old }
{
    for account in accounts.iter_mut() {
        account.since = frame;
        account.counted = None;
    }
}
