// Descriptors: their classes, the causes of a failed port, and the refusals with their texts.
use pon_descr::{Cause, Class, Descriptor, Refusal};
use std::test::Fail;

#[test]
fn three_words_name_a_class(rt: HostRuntime) {
    for (word, wanted) in [
        ("none", Some(Class::Plain)),
        ("na", Some(Class::NonAssured)),
        ("be", Some(Class::BestEffort)),
        ("NA", None),
        ("bee", None),
        ("", None),
    ] {
        assert!(rt; Class::of_word(word.as_bytes()) == wanted, "{word}");
    }
}

#[test]
fn causes_are_1_to_9(rt: HostRuntime) {
    for (number, wanted) in [
        (0, None),
        (1, Some(1)),
        (9, Some(9)),
        (10, None),
        (255, None),
    ] {
        assert!(rt; Cause::new(number).map(Cause::get) == wanted, "{number}");
    }
}

// The refusals in the order of their numbers, each with its text.
fn refusals_with_texts(cause: Cause) -> [(Refusal, &'static str); 21] {
    [
        (Refusal::NoSuchAlloc, "E01 NoSuchAlloc"),
        (Refusal::AllocTaken, "E02 AllocTaken"),
        (Refusal::AllocRange, "E03 AllocRange"),
        (Refusal::OnuRange, "E04 OnuRange"),
        (Refusal::RateRange, "E05 RateRange"),
        (Refusal::MaxBelowGuaranteed, "E06 MaxBelowGuaranteed"),
        (Refusal::NeedsGuarantee, "E07 NeedsGuarantee"),
        (Refusal::NoSurplusRoom, "E08 NoSurplusRoom"),
        (Refusal::TooManyAllocs, "E09 TooManyAllocs"),
        (Refusal::TooManyOnus, "E10 TooManyOnus"),
        (Refusal::SeriesFull, "E11 SeriesFull"),
        (Refusal::Capacity, "E12 Capacity"),
        (Refusal::StaleFrame, "E13 StaleFrame"),
        (Refusal::NotPolled, "E14 NotPolled"),
        (Refusal::ReportCount, "E15 ReportCount"),
        (Refusal::AlreadyReported, "E16 AlreadyReported"),
        (Refusal::PortDown { cause }, "E17 PortDown 4"),
        (Refusal::PortUp, "E18 PortUp"),
        (Refusal::FrameLimit, "E19 FrameLimit"),
        (Refusal::ChapterFull, "E20 ChapterFull"),
        (Refusal::OutOfMemory, "E21 OutOfMemory"),
    ]
}

#[test]
fn refusals_have_number_and_name(rt: HostRuntime) -> Result<(), Fail> {
    let cause = Cause::new(4).ok_or("a cause")?;
    for (refusal, wanted) in refusals_with_texts(cause) {
        let text = format!(in rt.alloc(); "{refusal}")?;
        assert!(rt; text.as_str() == wanted, "{wanted}");
    }
    Ok(())
}

#[test]
fn the_first_refusal_of_a_descriptor_counts(rt: HostRuntime) {
    let above = 2_488_321;
    for (fixed, assured, max, class, wanted) in [
        (0, 0, 0, Class::Plain, None),
        (2_488_320, 0, 2_488_320, Class::Plain, None),
        (0, 1, 2, Class::NonAssured, None),
        (0, 0, 1, Class::BestEffort, None),
        (above, 0, 2_488_320, Class::Plain, Some(Refusal::RateRange)),
        (0, above, 0, Class::NonAssured, Some(Refusal::RateRange)),
        (0, 0, above, Class::Plain, Some(Refusal::RateRange)),
        (u64::MAX, 1, 0, Class::BestEffort, Some(Refusal::RateRange)),
        (1, 1, 1, Class::Plain, Some(Refusal::MaxBelowGuaranteed)),
        (
            2,
            0,
            1,
            Class::BestEffort,
            Some(Refusal::MaxBelowGuaranteed),
        ),
        (0, 0, 1, Class::NonAssured, Some(Refusal::NeedsGuarantee)),
        (0, 0, 0, Class::NonAssured, Some(Refusal::NeedsGuarantee)),
        (1, 1, 2, Class::NonAssured, Some(Refusal::NoSurplusRoom)),
        (0, 0, 0, Class::BestEffort, Some(Refusal::NoSurplusRoom)),
    ] {
        let refusal = Descriptor::new(fixed, assured, max, class).err();
        assert!(rt; refusal == wanted, "{fixed} {assured} {max} {class:?}");
    }
}
