//! The text of what is sure for an Alloc-ID.

ghost use Rattle.std.specs.Prelude.{◌≡◌, ◌++◌, IfOk, OnOk, OnErr, string_bytes};
ghost use Rattle.pon_manage.specs.Rows.{number_or_dash};
ghost use Rattle.pon_manage.specs.Sures.{sure_in, sure_line, sure_text};

use crate::texts::append_refusal;
use pon_descr::Refusal;
use pon_line::LineFault;
use pon_state::PortState;
use pon_sure::{Sure, sure_of};
use pon_units::AllocId;
use std::alloc::{AllocError, Global};

/// Returns what is sure for an Alloc-ID by the admitted set of a state; `None` if it is not admitted.
pub(crate) fn sure_in(state: &PortState, alloc_id: AllocId) -> Option<Sure>
    ensures { result ≡ sure_in state.now alloc_id }
{
    sure_of(state.roster(), alloc_id)
}

// Formats a number of maps, `-` if there is none.
fn wait_text(alloc: Global, wait: Option<u64>) -> Result<String, AllocError>
    ensures { IfOk result (λ text. string_bytes text ≡ number_or_dash wait) }
{
    match wait {
        None => format!(in alloc; "-"),
        Some(maps) => format!(in alloc; "{maps}"),
    }
}

// Formats the line of what is sure for an Alloc-ID.
fn sure_text(alloc: Global, alloc_id: AllocId, sure: &Sure) -> Result<String, AllocError>
    ensures { IfOk result (λ line. string_bytes line ≡ sure_text alloc_id sure.now) }
{
    let alloc_id = alloc_id.get();
    let (guaranteed, surplus) = (sure.guaranteed.get(), sure.surplus);
    let wait = wait_text(alloc, sure.wait)?;
    format!(in alloc;
        "sure alloc {alloc_id} guaranteed {guaranteed} surplus {surplus} wait {wait}\n"
    )
}

/// Appends the line of what is sure for an Alloc-ID, or the refusal `NoSuchAlloc` if it is not admitted. `Err` only if
/// memory is refused, and then the replies are unchanged.
pub(crate) fn append_sure(
    replies: &mut Vec<u8>,
    alloc_id: AllocId,
    sure: &Option<Sure>,
) -> Result<(), AllocError>
    ensures ok { OnOk result (replies.new.items ≡ replies.old.items
        ++ sure_line alloc_id sure.now) }
    ensures err { OnErr result (replies.new.items ≡ replies.old.items) }
{
    match sure {
        None => append_refusal(replies, LineFault::Port(Refusal::NoSuchAlloc)),
        Some(sure) => {
            let line = sure_text(*replies.allocator(), alloc_id, sure)?;
            replies.extend_from_slice(line.as_bytes())
        }
    }
}
