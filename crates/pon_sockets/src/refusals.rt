//! Whether one of the replies that come from a run is a refusal.

/// The begin of the reply to a line that is refused.
const REFUSAL: &[u8] = b"err ";

/// Looks for refusals in the replies of a run, as their bytes come.
#[derive(Clone, Copy)]
pub(crate) struct Refusals {
    // How many bytes of the line so far are those of a refusal. `None` if another byte came.
    alike: Option<usize>,
    found: bool,
}

impl Refusals {
    /// Begins before the first reply.
    pub(crate) fn none() -> Self {
        Refusals {
            alike: Some(0),
            found: false,
        }
    }

    /// Whether a refusal came.
    pub(crate) fn found(&self) -> bool {
        self.found
    }

    // Looks at the next byte.
    fn see_byte(&mut self, byte: u8) {
        self.alike = match self.alike {
            _ if byte == b'\n' => Some(0),
            Some(place) if REFUSAL.get(place) == Some(&byte) => Some(place.saturating_add(1)),
            _ => None,
        };
        if self.alike == Some(REFUSAL.len()) {
            self.found = true;
        }
    }

    /// Looks at the bytes that come next.
    pub(crate) fn see(&mut self, bytes: &[u8]) {
        for byte in bytes {
            self.see_byte(*byte);
        }
    }
}
