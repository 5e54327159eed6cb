//! The settlement of a closed port: its entries compared with the receipts of its posts.

ghost use Rattle.std.specs.Prelude.{◌≡◌, ◌↔◌, ◌<◌, ◌++◌, ℕ, IsTrue, MatchOption, MatchResult, length, map, slice_get, Some, take};
ghost use Rattle.pon_state.specs.State.{opened_under};
ghost use Rattle.pon_plant.specs.Plants.{opened_port};
ghost use Rattle.pon_desk.specs.Receipts.{Receipt};
ghost use Rattle.pon_desk.specs.Settling.{PortHistory, IsFirstWithout, IsRightAt, IsRightChapter, IsSettled, TellsUnsettled, posts_of};
ghost use Rattle.pon_desk.specs.Walks.{left_of};

use crate::receipt::Receipt;
use crate::unsettled::Unsettled;
use crate::walk::Walk;
use pon_admit::RULE_IN_FORCE;
use pon_port::{Chapter, Port, PortCfg, PortState};
use pon_units::{FrameNo, PortNo};

// Returns whether a port just opened has the rule in force, this configuration and this first frame.
fn opens_as(opening: &PortState, opened: &(PortCfg, FrameNo)) -> bool
    requires { opening.now
        ≡ opened_under opening.now.rule opening.now.gap opening.now.profile opening.now.next }
    ensures { IsTrue result ↔ (opening.now ≡ (opened_port opened.now).opening) }
{
    let (cfg, first) = *opened;
    let kept = opening.cfg();
    opening.roster().rule() == RULE_IN_FORCE
        && kept.gap.get() == cfg.gap.get()
        && kept.profile.get() == cfg.profile.get()
        && opening.next_frame().get() == first.get()
}

// Finds the first chapter that is not right.
fn chapter_fault(opened: &(PortCfg, FrameNo), kept: &Port, chapters: &[Chapter]) -> Option<usize>
    ensures { let h : PortHistory = record { opened = opened.now; chapters = chapters.now; kept = kept.now } in
        MatchOption result ((k : ℕ) → IsRightChapter h k) (IsFirstWithout (IsRightChapter h)) }
{
    let last = kept.chapter_number();
    for k in 0..chapters.len() {
        let chapter = &chapters[k];
        let number = k as u64;
        if number >= last || chapter.number() != number {
            return Some(k);
        }
        if k == 0 && !opens_as(chapter.opening(), opened) {
            return Some(k);
        }
    }
    if (chapters.len() as u64) < last {
        return Some(chapters.len());
    }
    if chapters.is_empty() && !opens_as(kept.opening(), opened) {
        return Some(0);
    }
    None
}

// Counts the receipts of a seat, each of which names the number of earlier ones.
fn posts_of(receipts: &[Receipt], seat: usize) -> u64
    requires { (k : ℕ) (r : Receipt) → slice_get receipts.now k ≡ Some r
        → r.nth ≡ posts_of r.seat (take k receipts.now) }
    ensures { result ≡ posts_of seat receipts.now }
{
    let mut left = receipts.len();
    while left > 0 {
        left -= 1;
        let receipt = &receipts[left];
        if receipt.seat == seat {
            return receipt.nth + 1;
        }
    }
    0
}

// Finds the first receipt that is not right, and passes the entries of those before it.
fn receipt_fault(port: PortNo, walk: &mut Walk<'_>, receipts: &[Receipt]) -> Option<usize>
    ensures { MatchOption result
        (((k : ℕ) → IsRightAt (left_of walk.old) port receipts.now k)
        × (left_of walk.old ≡ map (λ r. r.placed) receipts.now ++ left_of walk.new))
        (IsFirstWithout (IsRightAt (left_of walk.old) port receipts.now)) }
{
    for k in 0..receipts.len() {
        let receipt = &receipts[k];
        if receipt.port != port {
            return Some(k);
        }
        if !walk.passes(&receipt.placed) {
            return Some(k);
        }
        if receipt.nth != posts_of(&receipts[..k], receipt.seat) {
            return Some(k);
        }
    }
    None
}

// Compares chapters and receipts with those of a closed port.
pub(crate) fn settle_port(
    opened: &(PortCfg, FrameNo),
    port: PortNo,
    kept: &Port,
    chapters: &[Chapter],
    receipts: &[Receipt],
) -> Result<(), Unsettled>
    ensures { let h : PortHistory = record { opened = opened.now; chapters = chapters.now; kept = kept.now } in
        MatchResult result (λ _. IsSettled h port receipts.now)
        (λ why. TellsUnsettled h port receipts.now why) }
{
    if let Some(k) = chapter_fault(opened, kept, chapters) {
        return Err(Unsettled::Chapter { k });
    }
    let mut walk = Walk::new(chapters, kept);
    if let Some(k) = receipt_fault(port, &mut walk, receipts) {
        return Err(Unsettled::Receipt { k });
    }
    if !walk.is_at_end() || receipts.len() as u64 != kept.taken() {
        return Err(Unsettled::Count);
    }
    Ok(())
}
