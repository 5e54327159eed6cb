use thiserror::Error;

/// Why a header word cannot be opened: it is more than two bit errors away from every codeword.
#[derive(Clone, Copy, Debug, PartialEq, Eq, Error)]
#[error("more than two bits away from every codeword")]
pub struct HecFault;
