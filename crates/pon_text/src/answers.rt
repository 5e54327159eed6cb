//! The trait of values that answer lines.

ghost use Rattle.std.specs.Prelude.{◌≡◌, ℕ, List, OnOk, OnErr};
ghost use Rattle.pon_text.specs.Giving.{AddsReply, IsPath, ReadsFirst};

use std::alloc::AllocError;

/// A value that answers lines at a state of type `S`, which a line may change. A line has no line feed, and may be cut
/// after its first 4,097 bytes.
pub trait Answers<S> {
    /// In the first state the line has the text as its answer, and the second state is the one after it.
    ghost gives: { S → List ℕ → List ℕ → S → Type 0 };

    /// Some lines may lead from the first state to the second, also if memory is refused for one of them.
    ghost path: { S → S → Type 0 };

    /// Appends the text of a line to the replies, nothing if it has no reply. Memory is allocated by the allocator of
    /// the replies.
    ///
    /// # Errors
    ///
    /// `AllocError` only if memory is refused; then the replies are unchanged, and of the state afterwards it is only
    /// known that it is on the path.
    fn answer_line(
        &mut self,
        state: &mut S,
        line: &[u8],
        replies: &mut Vec<u8>,
    ) -> Result<(), AllocError>
        ensures ok { OnOk result (AddsReply gives state.old state.new line.now
            replies.old.items replies.new.items) }
        ensures err { OnErr result (replies.new.items ≡ replies.old.items) }
        ensures path { path state.old state.new };

    /// A line has the same text as its first 4,097 bytes, so that a reader may drop the rest.
    ghost reads_first: { ReadsFirst gives };

    /// The path of no lines leads nowhere else, and paths may be joined.
    ghost is_path: { IsPath path };
}
