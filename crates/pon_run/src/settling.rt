//! The settlement of the ports of a run with the receipts of its posts.

ghost use Rattle.std.specs.Prelude.{◌≡◌, IfOk, map};
ghost use Rattle.pon_run.specs.Settlements.{AreOf, IsOf, settled_from};

use pon_desk::{Closed, Receipt, Seat, Unsettled};
use pon_port::Chapter;
use pon_recorder::TakenChapters;
use pon_units::PortNo;
use std::alloc::{AllocError, Global};
use std::sync::ledger::Ledger;

/// What a port is settled with: the chapters that it returned, and the receipts of its posts in the order of their places.
#[derive(Drop)]
pub(crate) struct Account {
    pub(crate) port: PortNo,
    pub(crate) chapters: Vec<Chapter>,
    pub(crate) receipts: Vec<Receipt>,
}

/// The settlement of a port: the number of its receipts, or what is not right.
#[derive(Clone, Copy)]
pub(crate) struct Settlement {
    pub(crate) port: PortNo,
    pub(crate) result: Result<usize, Unsettled>,
}

/// Opens an account for each port with the chapters that the recorder took for it, in order, and no receipts. `Err` only if
/// memory is refused.
pub(crate) fn open_accounts(
    alloc: Global,
    taken: Vec<TakenChapters>,
) -> Result<Vec<Account>, AllocError>
    ensures ports { IfOk result (λ all.
        map (λ account. account.port) all.items ≡ map (λ t. t.port) taken.items) }
    ensures chapters { IfOk result (λ all.
        map (λ account. account.chapters) all.items ≡ map (λ t. t.chapters) taken.items) }
{
    let mut all = Vec::with_capacity(alloc, taken.len())?;
    for TakenChapters { port, chapters } in taken {
        let receipts = Vec::new(alloc);
        all.push(Account {
            port,
            chapters,
            receipts,
        })?;
    }
    Ok(all)
}

// Adds the receipts that a seat kept to the accounts of their ports. `Err` if memory is refused, or was refused for one.
fn add_from<L: Ledger, M: Ledger>(
    seat: &mut Seat<L, M>,
    accounts: &mut [Account],
) -> Result<(), AllocError> {
    let Some(receipts) = seat.take_receipts() else {
        return Err(AllocError);
    };
    for receipt in receipts {
        let port = usize::from(receipt.port().get());
        if let Some(account) = accounts.get_mut(port) {
            account.receipts.push(receipt)?;
        }
    }
    Ok(())
}

/// Adds the receipts that all seats kept to the accounts of their ports, which stand in the order of the ports. `Err` if
/// memory is refused, or was refused for a receipt.
pub(crate) fn add_receipts<L: Ledger, M: Ledger>(
    alloc: Global,
    seats: &mut [Seat<L, M>],
    accounts: &mut [Account],
) -> Result<(), AllocError> {
    for seat in seats {
        add_from(seat, accounts)?;
    }
    for account in accounts {
        let receipts = account.receipts.as_mut_slice();
        receipts.sort_by_key(alloc, |receipt| (receipt.chapter(), receipt.index()))?;
    }
    Ok(())
}

// Settles a port of a closed desk.
fn settle_port(closed: &Closed, account: &Account) -> Settlement
    ensures { IsOf closed.now account.now result }
{
    let port = account.port;
    let settled = closed.settle(
        port,
        account.chapters.as_slice(),
        account.receipts.as_slice(),
    );
    Settlement {
        port,
        result: settled.map(|_| account.receipts.len()),
    }
}

/// Settles the ports of a closed desk that have accounts, in their order. `Err` only if memory is refused.
pub(crate) fn settle_ports(
    alloc: Global,
    closed: &Closed,
    accounts: &[Account],
) -> Result<Vec<Settlement>, AllocError>
    ensures { IfOk result (λ all. AreOf closed.now accounts.now all.items) }
{
    let mut all = Vec::with_capacity(alloc, accounts.len())?;
    for account in accounts {
        all.push(settle_port(closed, account))?;
    }
    Ok(all)
}

/// Returns whether these are settlements of the ports from 0 on, in order, and each port is settled.
pub(crate) fn are_settled(all: &[Settlement]) -> bool
    ensures { result ≡ settled_from 0 all.now }
{
    for (place, settlement) in all.iter().enumerate() {
        if usize::from(settlement.port.get()) != place || settlement.result.is_err() {
            return false;
        }
    }
    true
}
