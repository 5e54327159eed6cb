// Reports of occupancies as bytes.
use pon_dbru::{Garbled, Occupancies, decode, encode};
use pon_units::BufOcc;

// Returns the occupancy that the report of `words` reads as.
fn read_again(words: u32) -> Option<BufOcc> {
    decode(encode(BufOcc::new(words)?)).ok()
}

#[test]
fn reports_are_read_back(rt: HostRuntime) {
    for (words, bytes) in [
        (0, [0x00, 0x00, 0x00, 0x00]),
        (100, [0x00, 0x00, 0x64, 0x3b]),
    ] {
        let occupancy = BufOcc::new(words).expect(&rt, "an occupancy");
        assert!(rt; encode(occupancy) == bytes, "{words}");
        assert!(rt; decode(bytes) == Ok(occupancy), "{words}");
    }
    let greatest = 16_777_215;
    assert!(rt; read_again(greatest).map(BufOcc::get) == Some(greatest));
}

// Each single wrong bit makes a report garbled.
#[test]
fn wrong_bits_are_garbled(rt: HostRuntime) {
    for place in 0..32u32 {
        let word = 0x0000_643b_u32 ^ (1 << place);
        assert!(rt; decode(word.to_be_bytes()) == Err(Garbled), "{place}");
    }
}

#[test]
fn occupancies_are_kept_in_order(rt: HostRuntime) {
    let mut occupancies = Occupancies::new();
    occupancies.push(BufOcc::new(16_777_215));
    occupancies.push(None);
    let wanted = [BufOcc::new(16_777_215), None];
    assert!(rt; occupancies.as_slice() == wanted.as_slice() && occupancies.copy() == occupancies);
}
