use pon_audit::Verdict;

/// A view of a recording.
#[derive(Drop)]
pub struct Viewed<T> {
    /// The verdict of the recording's audit.
    pub verdict: Verdict,
    /// What is shown of the recording.
    pub shown: T,
}
