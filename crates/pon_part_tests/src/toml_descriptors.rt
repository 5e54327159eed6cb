// Descriptors read from tables of settings.
use pon_descr::{Class, DescrFault, Descriptor, Refusal, from_toml};
use std::alloc::Global;

// Reads the descriptor of a text; `None` if it is no table.
fn read(alloc: Global, text: &str) -> Option<Result<Descriptor, DescrFault>> {
    let table = toml::table_from_str(alloc, text).ok()?;
    Some(from_toml(&table))
}

#[test]
fn reads_four_keys(rt: HostRuntime) {
    let text = "fixed = 256\nassured = 512\nmax = 1024\nclass = \"be\"\nqueue = -1\n";
    let wanted = Descriptor::new(256, 512, 1024, Class::BestEffort).expect(&rt, "a descriptor");
    assert!(rt; read(rt.alloc(), text) == Some(Ok(wanted)));
}

#[test]
fn tells_the_refusal_of_a_descriptor(rt: HostRuntime) {
    for (text, wanted) in [
        (
            "fixed = 2488321\nassured = 0\nmax = 0\nclass = \"none\"\n",
            DescrFault::Refused(Refusal::RateRange),
        ),
        (
            "fixed = 9223372036854775807\nassured = 9223372036854775807\nmax = 0\nclass = \"none\"\n",
            DescrFault::Refused(Refusal::RateRange),
        ),
        (
            "fixed = 1\nassured = 0\nmax = 0\nclass = \"none\"\n",
            DescrFault::Refused(Refusal::MaxBelowGuaranteed),
        ),
    ] {
        let told = read(rt.alloc(), text);
        assert!(rt; told == Some(Err(wanted)), "{text}: {told:?}");
    }
}

#[test]
fn tells_a_field_before_a_refusal(rt: HostRuntime) {
    for text in [
        "",
        "fixed = 1\nassured = 0\nclass = \"none\"\n",
        "fixed = -1\nassured = 0\nmax = 0\nclass = \"none\"\n",
        "fixed = 0\nassured = 0.0\nmax = 0\nclass = \"none\"\n",
        "fixed = 2488321\nassured = 0\nmax = 0\nclass = \"best\"\n",
        "fixed = 0\nassured = 0\nmax = 0\nclass = 1\n",
    ] {
        let told = read(rt.alloc(), text);
        assert!(rt; told == Some(Err(DescrFault::Field)), "{text}: {told:?}");
    }
}
