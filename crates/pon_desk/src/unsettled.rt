use thiserror::Error;

/// Why chapters and receipts do not settle a closed port.
#[derive(Clone, Copy, Debug, PartialEq, Eq, Error)]
pub enum Unsettled {
    /// The k-th chapter is absent, has another number than `k` or is one too many, or it is the first one (returned or
    /// kept) and opens otherwise than the port was to be opened. 0 also if the desk had no such port.
    #[error("chapter {k} is absent or does not follow")]
    Chapter { k: usize },
    /// The k-th receipt is of another port, does not have the k-th entry and its place, or tells another number of
    /// earlier posts of its seat than there are receipts before it.
    #[error("receipt {k} is of another entry")]
    Receipt { k: usize },
    /// There are fewer receipts than entries, or not as many as the port took.
    #[error("fewer receipts than entries")]
    Count,
}
