use pon_units::{
    AllocId, BufOcc, FRAME_WORDS, Frac, FrameNo, Gap, Kbps, LINE_RATE, MAX_OCCUPANCY, MAX_RATE,
    OnuId, PortNo, Profile, WORD_RATE, Words, cmp_frac, whole,
};
use std::cmp::Ordering;

#[test]
fn takes_identifiers_in_range(rt: HostRuntime) {
    for (n, want) in [
        (0, Some(0)),
        (1022, Some(1022)),
        (1023, None),
        (65535, None),
    ] {
        assert!(rt; OnuId::new(n).map(OnuId::get) == want, "ONU-ID {n}");
    }
    for (n, want) in [
        (0, None),
        (1023, None),
        (1024, Some(1024)),
        (16383, Some(16383)),
        (16384, None),
    ] {
        assert!(rt; AllocId::new(n).map(AllocId::get) == want, "Alloc-ID {n}");
    }
    for (n, want) in [(0, Some(0)), (63, Some(63)), (64, None), (255, None)] {
        assert!(rt; PortNo::new(n).map(PortNo::get) == want, "port {n}");
    }
    for place in [0, 1, 63] {
        assert!(rt; usize::from(PortNo::at(place).get()) == place);
    }
}

#[test]
fn rates_are_words_in_each_frame(rt: HostRuntime) {
    assert!(rt; u64::from(FRAME_WORDS) * WORD_RATE == LINE_RATE);
    assert!(rt; u64::from(MAX_OCCUPANCY) * WORD_RATE == u64::from(MAX_RATE));
}

#[test]
fn takes_amounts_in_range(rt: HostRuntime) {
    for (n, want) in [
        (0, Some(0)),
        (4_294_967_040, Some(4_294_967_040)),
        (4_294_967_041, None),
        (4_294_967_295, None),
    ] {
        assert!(rt; Kbps::new(n).map(Kbps::get) == want, "{n} kbit/s");
    }
    for (n, want) in [
        (0, Some(0)),
        (9720, Some(9720)),
        (9721, None),
        (65535, None),
    ] {
        assert!(rt; Words::new(n).map(Words::get) == want, "{n} words");
    }
    for (n, want) in [
        (0, Some(0)),
        (16_777_215, Some(16_777_215)),
        (16_777_216, None),
        (4_294_967_295, None),
    ] {
        assert!(rt;
            BufOcc::new(n).map(BufOcc::get) == want,
            "an occupancy of {n}"
        );
    }
}

#[test]
fn takes_gaps_profiles_and_frames(rt: HostRuntime) {
    for (n, want) in [
        (0, None),
        (1, Some(1)),
        (256, Some(256)),
        (257, None),
        (65535, None),
    ] {
        assert!(rt; Gap::new(n).map(Gap::get) == want, "a gap of {n}");
    }
    for (n, want) in [(0, Some(0)), (3, Some(3)), (4, None), (255, None)] {
        assert!(rt; Profile::new(n).map(Profile::get) == want, "profile {n}");
    }
    for n in [0, 1, u64::MAX] {
        assert!(rt; FrameNo::new(n).get() == n);
    }
}

#[test]
fn compares_fractions(rt: HostRuntime) {
    let most = u64::MAX;
    for (a, b, want) in [
        (Frac::new(90, 3), Frac::new(30, 1), Ordering::Equal),
        (Frac::new(100, 7), Frac::new(14, 1), Ordering::Greater),
        (Frac::new(14, 1), Frac::new(100, 7), Ordering::Less),
        (Frac::new(0, 5), Frac::new(0, most), Ordering::Equal),
        (
            Frac::new(most, most - 1),
            Frac::new(most - 1, most),
            Ordering::Greater,
        ),
        (Frac::new(most, 1), Frac::new(most, 1), Ordering::Equal),
        (
            Frac::new(most - 1, most),
            Frac::new(most, most),
            Ordering::Less,
        ),
    ] {
        assert!(rt; cmp_frac(a, b) == want, "{a:?} and {b:?}");
    }
    let third = Frac::new(90, 3);
    assert!(rt; (third.num(), third.den()) == (90, 3));
}

#[test]
fn takes_the_whole_part(rt: HostRuntime) {
    for (num, den, want) in [
        (90, 3, 30),
        (100, 7, 14),
        (104, 7, 14),
        (105, 7, 15),
        (0, 1, 0),
        (u64::MAX, 1, u64::MAX),
        (u64::MAX - 1, u64::MAX, 0),
    ] {
        assert!(rt; den > 0);
        assert!(rt; whole(num, den) == want, "{num} / {den}");
    }
}
