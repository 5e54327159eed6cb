use crate::fault::HeadFault;
use crate::header::open_header;
use pon_hec::seal32;
use std::marker::Model;

/// The head of a downstream bandwidth map, HLend of ITU-T G.987.3: the number of allocation structures (N)
/// and the number of messages (P) that follow it.
#[derive(Clone, Copy, Debug, PartialEq, Eq)]
pub struct HLend {
    structures: u16,
    messages: u8,
}

impl Model for HLend {
    ghost use Rattle.std.specs.Prelude.{◌≤◌};
    ghost use Rattle.pon_xgtc.specs.HLend.{HLend};

    ghost Value = { HLend };

    ghost view = { λ h. record { n = h.structures; p = h.messages } };

    ghost invariant = { λ h. h.structures ≤ 2047 };

    ghost inverse = { λ v. record { structures = v.n; messages = v.p } };
}

impl HLend {
    ghost use Rattle.std.specs.Prelude.{◌≡◌, ◌≤◌, ◌<◌, ◌^◌, ℕ, List, ◌++◌, IfOk, IfErr};
    ghost use Rattle.std.specs.Option.{SomeIff};
    ghost use Rattle.pon_xgtc.specs.HLend.{HLend, FitsHLend, ReadsHLend, hlend_payload};
    ghost use Rattle.pon_xgtc.specs.Header.{IsHeaderFault, header_bytes};

    /// Returns the head of a map with N structures and P messages; `None` exactly when N is above 2,047.
    pub fn new(n: u16, p: u8) -> Option<Self>
        ensures { SomeIff result (n ≤ 2047) record { n = n; p = p } }
    {
        if n > 2047 {
            return None;
        }
        Some(HLend {
            structures: n,
            messages: p,
        })
    }

    /// N, the number of allocation structures, 0 to 2,047.
    pub fn n(&self) -> u16
        ensures value { result ≡ self.now.n }
        ensures range { result ≤ 2047 }
    {
        self.structures
    }

    /// P, the number of messages of 48 bytes, 0 to 255.
    pub fn p(&self) -> u8
        ensures { result ≡ self.now.p }
    {
        self.messages
    }

    /// Returns the four bytes of the head, N first.
    pub fn encode(&self) -> [u8; 4]
        ensures { result ≡ header_bytes (hlend_payload self.now) }
    {
        seal32(self.payload()).to_be_bytes()
    }

    /// Decodes the head at the front of the bytes. Returns it with the number of corrected bits, at most two. Later
    /// bytes are not read.
    ///
    /// # Errors
    ///
    /// `Short` exactly when there are fewer than 4 bytes; otherwise `Hec` exactly when the first four differ in more
    /// than two bits from every codeword.
    pub fn decode(bytes: &[u8]) -> Result<(Self, u8), HeadFault>
        ensures ok { IfOk result (λ r. ReadsHLend bytes.now r.0 r.1) }
        ensures fault { IfErr result (λ f. IsHeaderFault bytes.now f) }
        ensures written { (h : HLend) (rest : List ℕ) → FitsHLend h →
            bytes.now ≡ header_bytes (hlend_payload h) ++ rest
            → result ≡ Ok record { 0 = h; 1 = 0 } }
    {
        let (payload, corrected) = open_header(bytes)?;
        let head = HLend {
            structures: (payload >> 8) as u16,
            messages: (payload & 0xff) as u8,
        };
        Ok((head, corrected))
    }

    fn payload(&self) -> u32
        ensures value { result ≡ hlend_payload self.now }
        ensures fits { result < 2 ^ 19 }
    {
        let HLend {
            structures,
            messages,
        } = *self;
        (u32::from(structures) << 8) + u32::from(messages)
    }
}
