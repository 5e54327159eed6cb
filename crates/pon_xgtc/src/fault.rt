use thiserror::Error;

/// Why bytes do not begin with a header of 4 bytes.
#[derive(Clone, Copy, Debug, PartialEq, Eq, Error)]
pub enum HeadFault {
    /// There are fewer than 4 bytes.
    #[error("fewer than 4 bytes")]
    Short,
    /// The header differs in more than two bits from every codeword.
    #[error("more than two bits away from every codeword")]
    Hec,
}
