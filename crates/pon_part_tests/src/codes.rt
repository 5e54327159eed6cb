// Words of the header code: hand-computed words, every error pattern of at most two bits, and division bit by bit.
use pon_hec::{HecFault, open32, open64, seal32, seal64};

// An allocation structure, and its payload.
const WORD: u64 = 0x1002_0010_000b_13cb;

const PAYLOAD: u64 = WORD >> 13;

#[test]
fn corrects_each_pattern(rt: HostRuntime) {
    assert!(rt; open64(WORD) == Ok((PAYLOAD, 0)));
    for i in 0..64u32 {
        let one = WORD ^ (1 << i);
        assert!(rt; open64(one) == Ok((PAYLOAD, 1)), "place {i}");
        for j in 0..i {
            let two = one ^ (1 << j);
            assert!(rt; open64(two) == Ok((PAYLOAD, 2)), "places {i} and {j}");
        }
    }
}

#[test]
fn opens_short_words(rt: HostRuntime) {
    let wanted = [
        (0x0020_13ac, Ok((256, 0))),
        (0x8020_13ac, Ok((256, 1))),
        (0x8020_13ad, Ok((256, 2))),
        (0x8020_13af, Err(HecFault)),
        (0, Ok((0, 0))),
    ];
    for (word, opened) in wanted {
        assert!(rt; open32(word) == opened, "word {word}");
    }
}

// Remainders of x^12, x^13 and so on.
const LEFT: [u64; 51] = [
    0x539, 0xa72, 0x1dd, 0x3ba, 0x774, 0xee8, 0x8e9, 0x4eb, 0x9d6, 0x695, 0xd2a, 0xf6d, 0xbe3,
    0x2ff, 0x5fe, 0xbfc, 0x2c1, 0x582, 0xb04, 0x331, 0x662, 0xcc4, 0xcb1, 0xc5b, 0xd8f, 0xe27,
    0x977, 0x7d7, 0xfae, 0xa65, 0x1f3, 0x3e6, 0x7cc, 0xf98, 0xa09, 0x12b, 0x256, 0x4ac, 0x958,
    0x789, 0xf12, 0xb1d, 0x303, 0x606, 0xc0c, 0xd21, 0xf7b, 0xbcf, 0x2a7, 0x54e, 0xa9c,
];

const GENERATOR: u64 = 0b1_0101_0011_1001;

// Computes the codeword of 8 bytes by long division, one bit at a time.
fn divided_by_bits(payload: u64) -> u64 {
    let mut rest = payload << 12;
    for k in 0..51u32 {
        let n = 50 - k;
        if rest >= 1 << (12 + n) {
            rest ^= GENERATOR << n;
        }
    }
    let body = (payload << 12) ^ rest;
    (body << 1) | u64::from(body.count_ones() & 1)
}

fn word(payload: u64) -> Option<u64> {
    if payload < 1 << 51 {
        Some(seal64(payload))
    } else {
        None
    }
}

fn short_word(payload: u32) -> Option<u32> {
    if payload < 1 << 19 {
        Some(seal32(payload))
    } else {
        None
    }
}

// Returns whether the word of the payload has these check bits, and an even number of bits.
fn has_remainder(payload: u64, left: u64) -> bool {
    match word(payload) {
        Some(sealed) => (sealed >> 1) & 0xfff == left && sealed.count_ones() & 1 == 0,
        None => false,
    }
}

#[test]
fn powers_of_x(rt: HostRuntime) {
    let mut payload = 1u64;
    for left in LEFT {
        assert!(rt; has_remainder(payload, left), "payload {payload}");
        payload = payload.wrapping_mul(2);
    }
}

#[test]
fn as_by_bits(rt: HostRuntime) {
    let mut payload = 1u64;
    for _ in 0..200u32 {
        payload = payload.wrapping_mul(0x5851_f42d_4c95_7f2d).wrapping_add(1);
        let long = payload >> 13;
        assert!(rt; word(long) == Some(divided_by_bits(long)), "payload {long}");
        let short = (payload >> 45) as u32;
        let by_bits = divided_by_bits(u64::from(short));
        assert!(rt;
            short_word(short).map(u64::from) == Some(by_bits),
            "payload {short}"
        );
    }
}

#[test]
fn heads_of_maps(rt: HostRuntime) {
    for (payload, sealed) in [(0, 0), (256, 0x0020_13ac)] {
        assert!(rt; short_word(payload) == Some(sealed), "payload {payload}");
        assert!(rt;
            word(u64::from(payload)) == Some(u64::from(sealed)),
            "payload {payload}"
        );
    }
}
