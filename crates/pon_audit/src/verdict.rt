use pon_units::PortNo;
use std::fmt;

/// Why a chapter of a recording is bad. Of several faults the first counts, in this order: opening, chain, number,
/// entries in order; for one entry: event, certificate, words, bursts.
#[derive(Clone, Copy, Debug, PartialEq, Eq)]
pub enum AuditReason {
    /// The opening is not lawful: its rows are no admitted set in map order, a since-frame or a counted report does not
    /// fit the rows, the window and the next frame, the maps are no window up to the next frame, a failed port has maps
    /// or counted reports, or chapter 0 does not open with a port just opened.
    Opening,
    /// The chapter of the port with the number before is earlier in the recording, and the opening is not the state at
    /// its end.
    Chain,
    /// An earlier chapter of the port has the same number or a greater one.
    Number,
    /// A check refuses the event.
    Event,
    /// The certificate of a map is not that of the class problems of the state before it.
    Certificate,
    /// A map has the admitted Alloc-IDs in map order, but a grant is not one more than the payload words that its
    /// certificate gives.
    Words,
    /// A map differs in another way from the one that the state makes with its certificate, or is of another frame.
    Bursts,
}

impl fmt::Display for AuditReason {
    ghost use Rattle.std.specs.Prelude.{Some};
    ghost use Rattle.pon_audit.specs.Texts.{why_text};

    ghost output = { λ why. Some (why_text why) };

    fn fmt<W: fmt::Write>(&self, f: &mut fmt::Formatter<W>) -> fmt::Result {
        match *self {
            AuditReason::Opening => write!(f, "Opening"),
            AuditReason::Chain => write!(f, "Chain"),
            AuditReason::Number => write!(f, "Number"),
            AuditReason::Event => write!(f, "Event"),
            AuditReason::Certificate => write!(f, "Certificate"),
            AuditReason::Words => write!(f, "Words"),
            AuditReason::Bursts => write!(f, "Bursts"),
        }
    }
}

/// Result of the audit of a recording.
#[derive(Clone, Copy, Debug, PartialEq, Eq)]
pub enum Verdict {
    /// Each chapter is good; together they have this number of maps.
    Good {
        maps: u64,
    },
    /// The first chapter that fails, in the order of the recording: its port and number, the index of the entry from 0,
    /// and why. The index is 0 for `Opening`, `Chain` and `Number`.
    Bad {
        port: PortNo,
        chapter: u64,
        index: usize,
        why: AuditReason,
    },
    /// The bytes are not a recording: the fault is in the magic bytes, at 0, or in the chapter whose first byte is at
    /// `at`.
    BadFormat {
        at: usize,
    },
    /// The bytes end inside the magic bytes, at 0, or inside the chapter whose first byte is at `at`; the whole
    /// chapters before it are good.
    Truncated {
        at: usize,
    },
}

impl Verdict {
    ghost use Rattle.std.specs.Prelude.{◌≡◌};
    ghost use Rattle.pon_audit.specs.Answers.{is_good};

    /// Returns whether the recording is good.
    pub fn is_good(&self) -> bool
        ensures { result ≡ is_good self.now }
    {
        matches!(*self, Verdict::Good { .. })
    }
}

impl fmt::Display for Verdict {
    ghost use Rattle.std.specs.Prelude.{Some};
    ghost use Rattle.pon_audit.specs.Texts.{verdict_text};

    ghost output = { λ verdict. Some (verdict_text verdict) };

    fn fmt<W: fmt::Write>(&self, f: &mut fmt::Formatter<W>) -> fmt::Result {
        match *self {
            Verdict::Good { maps } => write!(f, "good maps {maps}"),
            Verdict::Bad {
                port,
                chapter,
                index,
                why,
            } => {
                let port = port.get();
                write!(f, "bad port {port} chapter {chapter} entry {index} {why}")
            }
            Verdict::BadFormat { at } => write!(f, "badformat {at}"),
            Verdict::Truncated { at } => write!(f, "truncated {at}"),
        }
    }
}
