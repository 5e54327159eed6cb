//! The text that shows the state of a port.

ghost use Rattle.std.specs.Prelude.{◌≡◌, ◌++◌, IfOk, OnOk, OnErr, string_bytes};
ghost use Rattle.pon_manage.specs.Text.{shown_line, shown_numbers, shown_of};

use pon_descr::Cause;
use pon_state::PortState;
use pon_units::{FrameNo, Kbps, WORD_RATE, Words};
use std::alloc::{AllocError, Global};

/// What is shown of a port: values that its present state keeps, so that none is computed again.
#[derive(Clone, Copy)]
pub(crate) struct Shown {
    /// Why the port is failed, if it is.
    pub(crate) cause: Option<Cause>,
    /// The frame of the next map.
    pub(crate) next: FrameNo,
    /// The number of admitted Alloc-IDs.
    pub(crate) allocs: usize,
    /// The number of ONUs that own one of them.
    pub(crate) onus: usize,
    /// The sum of the promised rates, in kbit/s.
    pub(crate) guaranteed: Kbps,
    /// The words of a frame that the overhead leaves.
    pub(crate) capacity: Words,
}

/// Returns what is shown of a state.
pub(crate) fn shown_of(state: &PortState) -> Shown
    ensures { result ≡ shown_of state.now }
{
    let roster = state.roster();
    Shown {
        cause: state.cause(),
        next: state.next_frame(),
        allocs: roster.rows().len(),
        onus: roster.onus(),
        guaranteed: roster.guaranteed_sum(),
        capacity: roster.capacity(),
    }
}

// Formats the numbers after the cause, each after its name.
fn numbers_text(alloc: Global, shown: &Shown) -> Result<String, AllocError>
    ensures { IfOk result (λ text. string_bytes text ≡ shown_numbers shown.now) }
{
    let next = shown.next.get();
    let allocs = shown.allocs;
    let onus = shown.onus;
    let guaranteed = shown.guaranteed.get();
    let capacity = WORD_RATE * u64::from(shown.capacity.get());
    format!(in alloc;
        " next {next} allocs {allocs} onus {onus} guaranteed {guaranteed} capacity {capacity}\n"
    )
}

// Formats the line that shows a port.
fn shown_line(alloc: Global, shown: &Shown) -> Result<String, AllocError>
    ensures { IfOk result (λ text. string_bytes text ≡ shown_line shown.now) }
{
    let numbers = numbers_text(alloc, shown)?;
    match shown.cause {
        None => format!(in alloc; "show up{numbers}"),
        Some(cause) => {
            let number = cause.get();
            format!(in alloc; "show down {number}{numbers}")
        }
    }
}

/// Appends the line that shows a port: whether its line is up, its next frame, the numbers of Alloc-IDs and ONUs of its
/// roster, and in kbit/s the sum of the promised rates and the capacity. `Err` only if memory is refused, and then the
/// replies are unchanged.
pub(crate) fn append_shown(replies: &mut Vec<u8>, shown: &Shown) -> Result<(), AllocError>
    ensures ok { OnOk result (replies.new.items ≡ replies.old.items ++ shown_line shown.now) }
    ensures err { OnErr result (replies.new.items ≡ replies.old.items) }
{
    let text = shown_line(*replies.allocator(), shown)?;
    replies.extend_from_slice(text.as_bytes())
}
