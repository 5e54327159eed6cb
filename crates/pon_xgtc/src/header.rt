ghost use Rattle.std.specs.Prelude.{◌≡◌, ◌<◌, ◌^◌, ℕ, List, ◌++◌, IfOk, IfErr};
ghost use Rattle.pon_xgtc.specs.Header.{ReadsHeader, IsHeaderFault, header_bytes};

use crate::fault::HeadFault;
use pon_hec::open32;

// Decodes the header at the front of the bytes. Returns its payload of 19 bits and the number of corrected bits.
pub(crate) fn open_header(bytes: &[u8]) -> Result<(u32, u8), HeadFault>
    ensures ok { IfOk result (λ p. ReadsHeader bytes.now p.0 p.1) }
    ensures payload { IfOk result (λ p. p.0 < 2 ^ 19) }
    ensures fault { IfErr result (λ f. IsHeaderFault bytes.now f) }
    ensures written { (payload : ℕ) (rest : List ℕ) → payload < 2 ^ 19
        → bytes.now ≡ header_bytes payload ++ rest →
        result ≡ Ok record { 0 = payload; 1 = 0 } }
{
    let Some(header) = bytes.first_chunk::<4>() else {
        return Err(HeadFault::Short);
    };
    match open32(u32::from_be_bytes(*header)) {
        Ok(opened) => Ok(opened),
        Err(_) => Err(HeadFault::Hec),
    }
}
