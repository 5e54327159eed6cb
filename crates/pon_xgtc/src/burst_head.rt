use crate::fault::HeadFault;
use crate::header::open_header;
use pon_hec::seal32;
use std::marker::Model;

/// The header of an upstream burst (ITU-T G.987.3): the ONU that sends it, and its indications.
#[derive(Clone, Copy, Debug, PartialEq, Eq)]
pub struct BurstHead {
    onu: u16,
    indications: u16,
}

impl Model for BurstHead {
    ghost use Rattle.std.specs.Prelude.{◌≤◌};
    ghost use Rattle.pon_xgtc.specs.BurstHead.{BurstHead};

    ghost Value = { BurstHead };

    ghost view = { λ h. record { onu_raw = h.onu; ind = h.indications } };

    ghost invariant = { λ h. (h.onu ≤ 1023) × (h.indications ≤ 511) };

    ghost inverse = { λ v. record { onu = v.onu_raw; indications = v.ind } };
}

impl BurstHead {
    ghost use Rattle.std.specs.Prelude.{◌≡◌, ◌≤◌, ◌<◌, ◌^◌, ℕ, List, ◌++◌, IfOk, IfErr};
    ghost use Rattle.std.specs.Option.{SomeIff};
    ghost use Rattle.pon_xgtc.specs.BurstHead.{BurstHead, FitsBurstHead, ReadsBurstHead, burst_head_payload};
    ghost use Rattle.pon_xgtc.specs.Header.{IsHeaderFault, header_bytes};

    /// Returns the header of a burst of this ONU-ID with these indications (Ind); `None` exactly when the
    /// ONU-ID is above 1,023 or the indications are above 511.
    pub fn new(onu_raw: u16, ind: u16) -> Option<Self>
        ensures { SomeIff result ((onu_raw ≤ 1023) × (ind ≤ 511))
            record { onu_raw = onu_raw; ind = ind } }
    {
        if onu_raw > 1023 || ind > 511 {
            return None;
        }
        Some(BurstHead {
            onu: onu_raw,
            indications: ind,
        })
    }

    /// ONU-ID as on the line, 0 to 1,023; no ONU has 1,023.
    pub fn onu_raw(&self) -> u16
        ensures value { result ≡ self.now.onu_raw }
        ensures range { result ≤ 1023 }
    {
        self.onu
    }

    /// Indications (Ind), 0 to 511.
    pub fn ind(&self) -> u16
        ensures value { result ≡ self.now.ind }
        ensures range { result ≤ 511 }
    {
        self.indications
    }

    /// Returns the four bytes of the header, the ONU-ID first.
    pub fn encode(&self) -> [u8; 4]
        ensures { result ≡ header_bytes (burst_head_payload self.now) }
    {
        seal32(self.payload()).to_be_bytes()
    }

    /// Decodes the burst header at the front of the bytes. Returns it with the number of corrected bits, at most two.
    /// Later bytes are not read.
    ///
    /// # Errors
    ///
    /// `Short` exactly when there are fewer than 4 bytes; otherwise `Hec` exactly when the first four differ in more
    /// than two bits from every codeword.
    pub fn decode(bytes: &[u8]) -> Result<(Self, u8), HeadFault>
        ensures ok { IfOk result (λ r. ReadsBurstHead bytes.now r.0 r.1) }
        ensures fault { IfErr result (λ f. IsHeaderFault bytes.now f) }
        ensures written { (h : BurstHead) (rest : List ℕ) → FitsBurstHead h →
            bytes.now ≡ header_bytes (burst_head_payload h) ++ rest
            → result ≡ Ok record { 0 = h; 1 = 0 } }
    {
        let (payload, corrected) = open_header(bytes)?;
        let head = BurstHead {
            onu: (payload >> 9) as u16,
            indications: (payload & 0x1ff) as u16,
        };
        Ok((head, corrected))
    }

    fn payload(&self) -> u32
        ensures value { result ≡ burst_head_payload self.now }
        ensures fits { result < 2 ^ 19 }
    {
        let BurstHead { onu, indications } = *self;
        (u32::from(onu) << 9) + u32::from(indications)
    }
}
