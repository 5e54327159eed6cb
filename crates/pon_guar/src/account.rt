//! The accounts of the report book: one for each admitted Alloc-ID, in ascending Alloc-ID.

ghost use Rattle.std.specs.Prelude.{◌≡◌, ◌<◌, ◌≤◌, nat_lt, not, None, filter, take, drop, length, MatchOption, vec_len, vec_capacity};
ghost use Rattle.pon_guar.specs.Book.{AreRising, StandsAt, account_of, alloc_ids};
ghost use Rattle.pon_guar.specs.Loads.{with_account, without_account};

use pon_units::{AllocId, BufOcc, FrameNo};

/// A report that counts.
#[derive(Clone, Copy, Debug, PartialEq, Eq)]
pub struct Counted {
    /// The frame of the map that requested it, of 125 µs.
    pub frame: FrameNo,
    /// Its words of 4 bytes that were not granted since, 0 to 16,777,215.
    pub words: BufOcc,
}

/// The account of an Alloc-ID in the report book.
#[derive(Clone, Copy, Debug, PartialEq, Eq)]
pub struct Account {
    /// The Alloc-ID, 1024 to 16383.
    pub alloc_id: AllocId,
    /// The frame from which its reports count, of 125 µs.
    pub since: FrameNo,
    /// The report that counts; `None` if there is none.
    pub counted: Option<Counted>,
}

// Returns the number of accounts of a smaller Alloc-ID, by a binary search.
fn place_of(accounts: &[Account], alloc_id: AllocId) -> usize
    requires { AreRising (alloc_ids accounts.now) }
    ensures within { result ≤ length accounts.now }
    ensures below { take result accounts.now
        ≡ filter (λ a. nat_lt a.alloc_id alloc_id) accounts.now }
    ensures others { drop result accounts.now
        ≡ filter (λ a. not (nat_lt a.alloc_id alloc_id)) accounts.now }
{
    accounts.partition_point(|account| account.alloc_id.get() < alloc_id.get())
}

/// Returns the index of the account of an Alloc-ID, by a binary search; `None` if it has no account.
pub(crate) fn index_of(accounts: &[Account], alloc_id: AllocId) -> Option<usize>
    requires { AreRising (alloc_ids accounts.now) }
    ensures { MatchOption result (account_of accounts.now alloc_id ≡ None)
        (StandsAt accounts.now alloc_id) }
{
    let place = place_of(accounts, alloc_id);
    if place < accounts.len() && accounts[place].alloc_id == alloc_id {
        Some(place)
    } else {
        None
    }
}

/// Returns the index of the account of an Alloc-ID: the hint if the account is there, otherwise by a binary search;
/// `None` if it has no account.
pub(crate) fn index_near(accounts: &[Account], hint: usize, alloc_id: AllocId) -> Option<usize>
    requires { AreRising (alloc_ids accounts.now) }
    ensures { MatchOption result (account_of accounts.now alloc_id ≡ None)
        (StandsAt accounts.now alloc_id) }
{
    if hint < accounts.len() && accounts[hint].alloc_id == alloc_id {
        return Some(hint);
    }
    index_of(accounts, alloc_id)
}

/// Returns the account of an Alloc-ID; `None` if it has none.
pub(crate) fn account_of(accounts: &[Account], alloc_id: AllocId) -> Option<Account>
    requires { AreRising (alloc_ids accounts.now) }
    ensures { result ≡ account_of accounts.now alloc_id }
{
    match index_of(accounts, alloc_id) {
        None => None,
        Some(place) => Some(accounts[place]),
    }
}

/// Inserts an account, in ascending Alloc-ID.
pub(crate) fn add_account(accounts: &mut Vec<Account>, account: Account)
    requires rising { AreRising (alloc_ids accounts.old.items) }
    requires room { vec_len accounts.old < vec_capacity accounts.old }
    ensures { accounts.new.items ≡ with_account account accounts.old.items }
{
    let place = place_of(accounts.as_slice(), account.alloc_id);
    accounts.insert(place, account).unwrap();
}

/// Removes the account of an Alloc-ID, if it has one.
pub(crate) fn remove_account(accounts: &mut Vec<Account>, alloc_id: AllocId)
    ensures { accounts.new.items ≡ without_account alloc_id accounts.old.items }
{
    accounts.retain(|account| account.alloc_id.get() != alloc_id.get());
}
