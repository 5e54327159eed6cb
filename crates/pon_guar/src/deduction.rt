//! Reports that count, reduced by what a map grants.

ghost use Rattle.std.specs.Prelude.{◌≡◌, ◌-◌, map};
ghost use Rattle.pon_guar.specs.Book.{AreRising, alloc_ids};
ghost use Rattle.pon_guar.specs.Loads.{lessened, less_by};

use crate::account::{Account, index_near};
use pon_units::{BufOcc, Granted, Words};

/// Returns the reported words reduced by the granted ones, at least 0.
pub(crate) fn words_left(reported: BufOcc, granted: u32) -> BufOcc
    ensures { result ≡ reported - granted }
{
    BufOcc::new(reported.get().saturating_sub(granted)).unwrap()
}

// Reduces the report of an account by the words of a grant.
fn deduct_words(words: Words, account: &mut Account)
    ensures { account.new ≡ less_by words account.old }
{
    if let Some(report) = &mut account.counted {
        report.words = words_left(report.words, u32::from(words.get()));
    }
}

/// Returns the account index that is noted at an index; 0 past the end.
pub(crate) fn hint_at(places: &[usize], index: usize) -> usize {
    if index < places.len() {
        places[index]
    } else {
        0
    }
}

// Notes an account index at an index, if the account exists and the index is not past the end.
fn note(places: &mut [usize], index: usize, found: Option<usize>) {
    if let Some(place) = found {
        if index < places.len() {
            places[index] = place;
        }
    }
}

/// Reduces the reports that count by what a map grants. `places` has a hint for the index of the account of each grant;
/// wrong hints are corrected.
pub(crate) fn deduct_grants(accounts: &mut [Account], grants: &[Granted], places: &mut [usize])
    requires { AreRising (alloc_ids accounts.old) }
    ensures { accounts.new ≡ map (lessened grants.now) accounts.old }
{
    let mut index = 0;
    for granted in grants {
        let hint = hint_at(places, index);
        let found = index_near(accounts, hint, granted.alloc_id);
        note(places, index, found);
        index = index.wrapping_add(1);
        if let Some(place) = found {
            deduct_words(granted.words, &mut accounts[place]);
        }
    }
}
