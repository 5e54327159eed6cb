// Headers of maps and of bursts as values and as bytes.
use pon_xgtc::{BurstHead, HLend, HeadFault};

#[test]
fn a_map_of_one_structure(rt: HostRuntime) {
    let head = HLend::new(1, 0).expect(&rt, "in range");
    assert!(rt; (head.n(), head.p()) == (1, 0));
    assert!(rt; head.encode() == [0x00, 0x20, 0x13, 0xac]);
}

#[test]
fn the_longest_map(rt: HostRuntime) {
    assert!(rt; HLend::new(2048, 0).is_none());
    let head = HLend::new(2047, 255).expect(&rt, "in range");
    assert!(rt; (head.n(), head.p()) == (2047, 255));
}

#[test]
fn corrects_two_places(rt: HostRuntime) {
    let head = HLend::new(1, 0).expect(&rt, "in range");
    for (bytes, read) in [
        ([0x00, 0x20, 0x13, 0xac], Ok((head, 0))),
        ([0x80, 0x20, 0x13, 0xad], Ok((head, 2))),
        ([0x80, 0x20, 0x13, 0xaf], Err(HeadFault::Hec)),
    ] {
        assert!(rt; HLend::decode(&bytes) == read, "{bytes:?}");
    }
    assert!(rt; HLend::decode(&[0x00, 0x20, 0x13]) == Err(HeadFault::Short));
}

#[test]
fn a_burst_of_onu_five(rt: HostRuntime) {
    let head = BurstHead::new(5, 0).expect(&rt, "in range");
    let bytes = [0x01, 0x40, 0x13, 0xf1];
    assert!(rt; head.encode() == bytes);
    assert!(rt; BurstHead::decode(&bytes) == Ok((head, 0)));
    assert!(rt; BurstHead::decode(&bytes[..3]) == Err(HeadFault::Short));
}

#[test]
fn ends_of_a_burst_header(rt: HostRuntime) {
    assert!(rt; BurstHead::new(1024, 0).is_none() && BurstHead::new(0, 512).is_none());
    let head = BurstHead::new(1023, 511).expect(&rt, "in range");
    assert!(rt; (head.onu_raw(), head.ind()) == (1023, 511));
    assert!(rt; BurstHead::decode(&head.encode()) == Ok((head, 0)));
}
