// The lines that explain the faults of settings.
use pon_settings::Document;
use std::alloc::{AllocError, Global};

const LAWFUL: &str = "fixed = 0\nassured = 0\nmax = 0\nclass = \"none\"";

// Returns the explanation of the fault of a text, or an empty text if it has no fault.
fn told(alloc: Global, text: &str) -> Result<String, AllocError> {
    let document = Document::parse(alloc, text)?;
    match document.settings(alloc) {
        Ok(_) => Ok(String::new(alloc)),
        Err(faulty) => faulty.explain(alloc),
    }
}

// Returns whether the explanation of a text is this line.
fn is_told(alloc: Global, text: &str, line: &str) -> bool {
    match told(alloc, text) {
        Ok(told) => told.as_str() == line,
        Err(_) => false,
    }
}

#[test]
fn names_the_place_and_the_rule(rt: HostRuntime) {
    for (text, wanted) in [
        ("", "  port is missing"),
        (
            "port = []",
            "  port must be a list of 1 to 64 tables, but is a list of length 0",
        ),
        ("ports = 1", "  unknown key \"ports\""),
        ("ports = 1\nqueues = 1", "  unknown key \"ports\""),
        ("[[port]]", "  port 0: gap is missing"),
        (
            "[[port]]\ngap = 0",
            "  port 0: gap must be 1 to 256, but is 0",
        ),
        (
            "[[port]]\ngap = 0\ngaps = 1",
            "  port 0: unknown key \"gaps\"",
        ),
    ] {
        assert!(rt; is_told(rt.alloc(), text, wanted), "{text}");
    }
}

#[test]
fn names_the_place_in_a_port(rt: HostRuntime) {
    for (text, wanted) in [
        (
            "[[port]]\ngap = 1\ngaps = 1\nqueues = 1",
            "  port 0: unknown key \"gaps\"",
        ),
        (
            "[[port]]\ngap = 1\nprofile = 4\nfirst = -1",
            "  port 0: profile must be 0 to 3, but is 4",
        ),
        (
            "[[port]]\ngap = 1\n[[port]]\ngap = 1\nfirst = -1",
            "  port 1: first must be 0 to 9223372036854775807, but is -1",
        ),
        (
            "[[port]]\ngap = 1\nalloc = [1]",
            "  port 0: alloc must be a list of tables, but is a list of length 1",
        ),
    ] {
        assert!(rt; is_told(rt.alloc(), text, wanted), "{text}");
    }
}

// Returns whether the line is the explanation of settings whose port 1 has this row.
fn is_told_of_row(alloc: Global, row: &str, line: &str) -> Option<bool> {
    let ports = "[[port]]\ngap = 1\n[[port]]\ngap = 1\n[[port.alloc]]";
    let text = format!(in alloc; "{ports}\n{row}\n{LAWFUL}\n").ok()?;
    Some(is_told(alloc, text.as_str(), line))
}

#[test]
fn names_the_rule_of_a_row(rt: HostRuntime) {
    for (row, wanted) in [
        (
            "onu = -1\nalloc = 1024",
            "  port 1, alloc 0: onu must be a whole number, not negative, but is -1",
        ),
        ("onu = 1", "  port 1, alloc 0: alloc is missing"),
        (
            "onu = 1\nalloc = 1024\nqueue = -1",
            "  port 1, alloc 0: queue must be 0 to 4294967295, but is -1",
        ),
        (
            "onu = 1\nalloc = 1024\nqueues = 1",
            "  port 1, alloc 0: unknown key \"queues\"",
        ),
        (
            "onu = 1\nalloc = 1024\nqueues = 1\nwords = 1",
            "  port 1, alloc 0: unknown key \"queues\"",
        ),
        ("onu = 1\nalloc = 1", "  port 1, alloc 0: E03 AllocRange"),
        (
            "onu = 1023\nalloc = 1024",
            "  port 1, alloc 0: E04 OnuRange",
        ),
    ] {
        assert!(rt;
            is_told_of_row(rt.alloc(), row, wanted) == Some(true),
            "{row}"
        );
    }
}

// Returns whether the line is the explanation of settings whose third row is this one.
fn is_told_of_third_row(alloc: Global, row: &str, line: &str) -> Option<bool> {
    let first = "[[port.alloc]]\nonu = 1\nalloc = 1024";
    let second = "[[port.alloc]]\nonu = 1\nalloc = 1025";
    let text = format!(in alloc;
        "[[port]]\ngap = 1\n{first}\n{LAWFUL}\n{second}\n{LAWFUL}\n[[port.alloc]]\n{row}\n"
    );
    Some(is_told(alloc, text.ok()?.as_str(), line))
}

#[test]
fn names_the_rule_of_the_third_row(rt: HostRuntime) {
    for (row, wanted) in [
        (
            "onu = 2\nalloc = 1026\nfixed = 0\nassured = 0\nmax = -1\nclass = \"none\"",
            "  port 0, alloc 2: max must be a whole number, not negative, but is -1",
        ),
        (
            "onu = 2\nalloc = 1026\nfixed = 0\nassured = 0\nmax = 0\nclass = \"none\"\nqueues = 1",
            "  port 0, alloc 2: unknown key \"queues\"",
        ),
        (
            "onu = 2\nalloc = 1025\nfixed = 0\nassured = 0\nmax = 0\nclass = \"none\"",
            "  port 0, alloc 2: E02 AllocTaken",
        ),
    ] {
        assert!(rt;
            is_told_of_third_row(rt.alloc(), row, wanted) == Some(true),
            "{row}"
        );
    }
}

// Returns whether the line names this rule of settings whose only row has these rates.
fn is_told_of_rates(alloc: Global, rates: &str, rule: &str) -> Option<bool> {
    let head = "[[port]]\ngap = 1\n[[port.alloc]]\nonu = 1\nalloc = 1024";
    let text = format!(in alloc; "{head}\n{rates}\n").ok()?;
    let line = format!(in alloc; "  port 0, alloc 0: {rule}").ok()?;
    Some(is_told(alloc, text.as_str(), line.as_str()))
}

#[test]
fn names_the_rule_of_a_descriptor(rt: HostRuntime) {
    for (rates, wanted) in [
        ("assured = 0\nmax = 0\nclass = \"none\"", "fixed is missing"),
        ("fixed = 0\nmax = 0\nclass = \"none\"", "assured is missing"),
        ("fixed = 0\nassured = 0\nclass = \"none\"", "max is missing"),
        (
            "fixed = 0\nassured = 0\nmax = 0\nclass = \"best\"",
            "class must be none, na or be, but is \"best\"",
        ),
        (
            "fixed = 0\nassured = 0\nmax = 0\nclass = 1",
            "class must be none, na or be, but is 1",
        ),
        (
            "fixed = -1\nassured = -1\nmax = 0\nclass = \"none\"",
            "fixed must be a whole number, not negative, but is -1",
        ),
        (
            "fixed = 0\nassured = -1\nmax = -1\nclass = \"none\"",
            "assured must be a whole number, not negative, but is -1",
        ),
        (
            "fixed = 0\nassured = 0\nmax = -1\nclass = \"best\"",
            "max must be a whole number, not negative, but is -1",
        ),
        (
            "fixed = 2488321\nassured = 0\nmax = 0\nclass = \"none\"",
            "E05 RateRange",
        ),
    ] {
        assert!(rt;
            is_told_of_rates(rt.alloc(), rates, wanted) == Some(true),
            "{rates}"
        );
    }
}

// Returns whether the explanation of a text begins so.
fn is_told_from(alloc: Global, text: &str, beginning: &str) -> bool {
    match told(alloc, text) {
        Ok(told) => told.as_str().starts_with(beginning),
        Err(_) => false,
    }
}

#[test]
fn names_the_line_and_the_column(rt: HostRuntime) {
    let text = "[[port]]\ngap = \n";
    let place = "  TOML parse error at line 2, column 7: ";
    assert!(rt; is_told_from(rt.alloc(), text, place));
}

// Returns the further line about the fault of settings whose only row has these numbers, or an empty text if there is none.
fn told_further(alloc: Global, row: &str) -> Option<String> {
    let text = format!(in alloc; "[[port]]\ngap = 16\n[[port.alloc]]\n{row}\n").ok()?;
    let document = Document::parse(alloc, text.as_str()).ok()?;
    let faulty = document.settings(alloc).err()?;
    match faulty.explain_further(alloc).ok()? {
        Some(line) => Some(line),
        None => Some(String::new(alloc)),
    }
}

// Returns whether the further line about the fault of such settings is this one.
fn is_told_further(alloc: Global, row: &str, line: &str) -> bool {
    match told_further(alloc, row) {
        Some(told) => told.as_str() == line,
        None => false,
    }
}

#[test]
fn names_what_a_refused_row_lacks(rt: HostRuntime) {
    for (row, wanted) in [
        (
            "onu = 5\nalloc = 1023\nfixed = 0\nassured = 0\nmax = 0\nclass = \"none\"",
            "  alloc must be 1024 to 16383, but is 1023",
        ),
        (
            "onu = 1023\nalloc = 1024\nfixed = 0\nassured = 0\nmax = 0\nclass = \"none\"",
            "  onu must be 0 to 1022, but is 1023",
        ),
        (
            "onu = 5\nalloc = 1024\nfixed = 0\nassured = 0\nmax = 2488321\nclass = \"none\"",
            "  max must be 0 to 2488320, but is 2488321",
        ),
        (
            "onu = 5\nalloc = 1024\nfixed = 2\nassured = 3\nmax = 4\nclass = \"none\"",
            "  max must be at least fixed and assured rate together, 5, but is 4",
        ),
        (
            "onu = 5\nalloc = 1024\nfixed = 2\nassured = 3\nmax = 5\nclass = \"be\"",
            "  max must be above fixed and assured rate together, 5, but is 5",
        ),
        (
            "onu = 5\nalloc = 1024\nfixed = 2483201\nassured = 0\nmax = 2483201\nclass = \"none\"",
            "  fixed and assured rate together are 2483201 kbit/s, free are 2483200 kbit/s",
        ),
        (
            "onu = 5\nalloc = 1024\nfixed = 0\nassured = 0\nmax = 0\nclass = \"na\"",
            "",
        ),
        ("onu = 5\nalloc = 1024", ""),
    ] {
        assert!(rt; is_told_further(rt.alloc(), row, wanted), "{row}");
    }
}
