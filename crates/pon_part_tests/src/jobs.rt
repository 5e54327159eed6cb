// The results of whole command lines, as clap parses them. A job is compared as the text of its `Debug`, so that a row costs no proof.
use clap::error::ErrorKind;
use pon_job::job;
use std::alloc::Global;

fn push_word(alloc: Global, words: &mut Vec<String>, word: &str) -> Option<()> {
    let word = String::from_str(alloc, word).ok()?;
    words.push(word).ok()
}

// Returns the words of a command line, the program's name first; `None` if memory is refused.
fn words_of(alloc: Global, line: &str) -> Option<Vec<String>> {
    let mut words = Vec::new(alloc);
    for word in line.split_whitespace() {
        push_word(alloc, &mut words, word)?;
    }
    Some(words)
}

// Returns the text of the job that a command line names.
fn named(alloc: Global, line: &str) -> Option<String> {
    let words = words_of(alloc, line)?;
    let found = job(alloc, words.as_slice()).ok()?;
    format!(in alloc; "{found:?}").ok()
}

// Returns whether a command line names the job of this text.
fn names(alloc: Global, line: &str, wanted: &str) -> bool {
    match named(alloc, line) {
        Some(text) => text.as_str() == wanted,
        None => false,
    }
}

// Returns the kind of the error of a command line, if there is one.
fn refusal(alloc: Global, line: &str) -> Option<ErrorKind> {
    let words = words_of(alloc, line)?;
    match job(alloc, words.as_slice()) {
        Ok(_) => None,
        Err(error) => Some(error.kind()),
    }
}

/// Jobs over lines and check files.
static LINES: [(&str, &str); 9] = [
    (
        "olt plan",
        r#"Plan(Plan { config: None, strict: false, verbose: false, record: None, no_clobber: false, forget: false, flush: None })"#,
    ),
    (
        "olt plan --config a.toml",
        r#"Plan(Plan { config: Some("a.toml"), strict: false, verbose: false, record: None, no_clobber: false, forget: false, flush: None })"#,
    ),
    (
        "olt plan --strict",
        r#"Plan(Plan { config: None, strict: true, verbose: false, record: None, no_clobber: false, forget: false, flush: None })"#,
    ),
    (
        "olt plan --verbose --config a.toml",
        r#"Plan(Plan { config: Some("a.toml"), strict: false, verbose: true, record: None, no_clobber: false, forget: false, flush: None })"#,
    ),
    (
        "olt plan --record r.bin",
        r#"Plan(Plan { config: None, strict: false, verbose: false, record: Some("r.bin"), no_clobber: false, forget: false, flush: None })"#,
    ),
    (
        "olt plan --no-clobber --record=r.bin",
        r#"Plan(Plan { config: None, strict: false, verbose: false, record: Some("r.bin"), no_clobber: true, forget: false, flush: None })"#,
    ),
    (
        "olt plan --forget --strict",
        r#"Plan(Plan { config: None, strict: true, verbose: false, record: None, no_clobber: false, forget: true, flush: None })"#,
    ),
    (
        "olt plan --record r.bin --flush 3600",
        r#"Plan(Plan { config: None, strict: false, verbose: false, record: Some("r.bin"), no_clobber: false, forget: false, flush: Some(3600) })"#,
    ),
    ("olt check c.txt", r#"Check { file: "c.txt" }"#),
];

/// Runs, and units elsewhere.
static RUNS: [(&str, &str); 20] = [
    (
        "olt run --config a.toml --listen 127.0.0.1:0 --maps 1",
        r#"Run(Run { config: "a.toml", listen: "127.0.0.1:0", maps: Some(1), meeting: Meeting { external: false, once: false, grow: false, wait: None, pace: None }, record: None, segments: Segments { maps: None, keep: None }, resume: Resume { from: None, truncated: false, warm: false, apply: false }, no_clobber: false, strict_record: false, flush: None, operate: None, control: Control { path: None, tcp: None, operators: None }, settle: false, progress: false, summary: false, metrics: None })"#,
    ),
    (
        "olt run --maps=1000000000 --listen=127.0.0.1:0 --config=a.toml",
        r#"Run(Run { config: "a.toml", listen: "127.0.0.1:0", maps: Some(1000000000), meeting: Meeting { external: false, once: false, grow: false, wait: None, pace: None }, record: None, segments: Segments { maps: None, keep: None }, resume: Resume { from: None, truncated: false, warm: false, apply: false }, no_clobber: false, strict_record: false, flush: None, operate: None, control: Control { path: None, tcp: None, operators: None }, settle: false, progress: false, summary: false, metrics: None })"#,
    ),
    (
        "olt run --config a.toml --operate b.txt --listen 127.0.0.1:0 --maps 3 --record r.bin",
        r#"Run(Run { config: "a.toml", listen: "127.0.0.1:0", maps: Some(3), meeting: Meeting { external: false, once: false, grow: false, wait: None, pace: None }, record: Some("r.bin"), segments: Segments { maps: None, keep: None }, resume: Resume { from: None, truncated: false, warm: false, apply: false }, no_clobber: false, strict_record: false, flush: None, operate: Some("b.txt"), control: Control { path: None, tcp: None, operators: None }, settle: false, progress: false, summary: false, metrics: None })"#,
    ),
    (
        "olt run --config a.toml --listen h:1 --record d --segment 1000000000 --keep 1000000 --resume d --resume-truncated --warm --apply",
        r#"Run(Run { config: "a.toml", listen: "h:1", maps: None, meeting: Meeting { external: false, once: false, grow: false, wait: None, pace: None }, record: Some("d"), segments: Segments { maps: Some(1000000000), keep: Some(1000000) }, resume: Resume { from: Some("d"), truncated: true, warm: true, apply: true }, no_clobber: false, strict_record: false, flush: None, operate: None, control: Control { path: None, tcp: None, operators: None }, settle: false, progress: false, summary: false, metrics: None })"#,
    ),
    (
        "olt run --settle --config a.toml --listen 127.0.0.1:0 --maps 2",
        r#"Run(Run { config: "a.toml", listen: "127.0.0.1:0", maps: Some(2), meeting: Meeting { external: false, once: false, grow: false, wait: None, pace: None }, record: None, segments: Segments { maps: None, keep: None }, resume: Resume { from: None, truncated: false, warm: false, apply: false }, no_clobber: false, strict_record: false, flush: None, operate: None, control: Control { path: None, tcp: None, operators: None }, settle: true, progress: false, summary: false, metrics: None })"#,
    ),
    (
        "olt run --config a.toml --listen h:1 --maps 1 --units external --wait 3600 --pace 1000000 --progress --summary",
        r#"Run(Run { config: "a.toml", listen: "h:1", maps: Some(1), meeting: Meeting { external: true, once: false, grow: false, wait: Some(3600), pace: Some(1000000) }, record: None, segments: Segments { maps: None, keep: None }, resume: Resume { from: None, truncated: false, warm: false, apply: false }, no_clobber: false, strict_record: false, flush: None, operate: None, control: Control { path: None, tcp: None, operators: None }, settle: false, progress: true, summary: true, metrics: None })"#,
    ),
    (
        "olt run --units simulated --config a.toml --listen h:1 --maps 1 --operate -",
        r#"Run(Run { config: "a.toml", listen: "h:1", maps: Some(1), meeting: Meeting { external: false, once: false, grow: false, wait: None, pace: None }, record: None, segments: Segments { maps: None, keep: None }, resume: Resume { from: None, truncated: false, warm: false, apply: false }, no_clobber: false, strict_record: false, flush: None, operate: Some("-"), control: Control { path: None, tcp: None, operators: None }, settle: false, progress: false, summary: false, metrics: None })"#,
    ),
    (
        "olt run --config a.toml --listen h:1 --maps 1 --pace=1 --wait=1",
        r#"Run(Run { config: "a.toml", listen: "h:1", maps: Some(1), meeting: Meeting { external: false, once: false, grow: false, wait: Some(1), pace: Some(1) }, record: None, segments: Segments { maps: None, keep: None }, resume: Resume { from: None, truncated: false, warm: false, apply: false }, no_clobber: false, strict_record: false, flush: None, operate: None, control: Control { path: None, tcp: None, operators: None }, settle: false, progress: false, summary: false, metrics: None })"#,
    ),
    (
        "olt run --strict-record --record=r.bin --config a.toml --listen h:1 --maps 1",
        r#"Run(Run { config: "a.toml", listen: "h:1", maps: Some(1), meeting: Meeting { external: false, once: false, grow: false, wait: None, pace: None }, record: Some("r.bin"), segments: Segments { maps: None, keep: None }, resume: Resume { from: None, truncated: false, warm: false, apply: false }, no_clobber: false, strict_record: true, flush: None, operate: None, control: Control { path: None, tcp: None, operators: None }, settle: false, progress: false, summary: false, metrics: None })"#,
    ),
    (
        "olt run --once --grow --flush 0 --config a.toml --listen h:1 --maps 1",
        r#"Run(Run { config: "a.toml", listen: "h:1", maps: Some(1), meeting: Meeting { external: false, once: true, grow: true, wait: None, pace: None }, record: None, segments: Segments { maps: None, keep: None }, resume: Resume { from: None, truncated: false, warm: false, apply: false }, no_clobber: false, strict_record: false, flush: Some(0), operate: None, control: Control { path: None, tcp: None, operators: None }, settle: false, progress: false, summary: false, metrics: None })"#,
    ),
    (
        "olt run --config a.toml --listen h:1 --operate -",
        r#"Run(Run { config: "a.toml", listen: "h:1", maps: None, meeting: Meeting { external: false, once: false, grow: false, wait: None, pace: None }, record: None, segments: Segments { maps: None, keep: None }, resume: Resume { from: None, truncated: false, warm: false, apply: false }, no_clobber: false, strict_record: false, flush: None, operate: Some("-"), control: Control { path: None, tcp: None, operators: None }, settle: false, progress: false, summary: false, metrics: None })"#,
    ),
    (
        "olt run --config a.toml --listen h:1 --control c.sock --operators 32",
        r#"Run(Run { config: "a.toml", listen: "h:1", maps: None, meeting: Meeting { external: false, once: false, grow: false, wait: None, pace: None }, record: None, segments: Segments { maps: None, keep: None }, resume: Resume { from: None, truncated: false, warm: false, apply: false }, no_clobber: false, strict_record: false, flush: None, operate: None, control: Control { path: Some("c.sock"), tcp: None, operators: Some(32) }, settle: false, progress: false, summary: false, metrics: None })"#,
    ),
    (
        "olt run --control-tcp h:2 --operators=1 --config a.toml --control=c.sock --listen h:1",
        r#"Run(Run { config: "a.toml", listen: "h:1", maps: None, meeting: Meeting { external: false, once: false, grow: false, wait: None, pace: None }, record: None, segments: Segments { maps: None, keep: None }, resume: Resume { from: None, truncated: false, warm: false, apply: false }, no_clobber: false, strict_record: false, flush: None, operate: None, control: Control { path: Some("c.sock"), tcp: Some("h:2"), operators: Some(1) }, settle: false, progress: false, summary: false, metrics: None })"#,
    ),
    (
        "olt run --metrics :9464 --config a.toml --listen h:1",
        r#"Run(Run { config: "a.toml", listen: "h:1", maps: None, meeting: Meeting { external: false, once: false, grow: false, wait: None, pace: None }, record: None, segments: Segments { maps: None, keep: None }, resume: Resume { from: None, truncated: false, warm: false, apply: false }, no_clobber: false, strict_record: false, flush: None, operate: None, control: Control { path: None, tcp: None, operators: None }, settle: false, progress: false, summary: false, metrics: Some(":9464") })"#,
    ),
    ("olt stop --control c.sock", r#"Stop(Path("c.sock"))"#),
    ("olt stop --control-tcp h:2", r#"Stop(Tcp("h:2"))"#),
    ("olt operate --control c.sock", r#"Operate(Path("c.sock"))"#),
    ("olt operate --control-tcp=h:2", r#"Operate(Tcp("h:2"))"#),
    (
        "olt units --config a.toml --connect h:1",
        r#"Units(Units { config: "a.toml", connect: "h:1", port: None, wait: None })"#,
    ),
    (
        "olt units --port 63 --wait 1 --connect h:1 --config a.toml",
        r#"Units(Units { config: "a.toml", connect: "h:1", port: Some(63), wait: Some(1) })"#,
    ),
];

/// Audits and views of recordings.
static RECORDINGS: [(&str, &str); 19] = [
    (
        "olt audit r.bin",
        r#"Audit(Audit { files: ["r.bin"], joined: false, json: false, complete: false })"#,
    ),
    (
        "olt audit a.bin b.bin c.bin",
        r#"Audit(Audit { files: ["a.bin", "b.bin", "c.bin"], joined: false, json: false, complete: false })"#,
    ),
    (
        "olt audit --format json r.bin",
        r#"Audit(Audit { files: ["r.bin"], joined: false, json: true, complete: false })"#,
    ),
    (
        "olt audit a.bin b.bin --format=json c.bin",
        r#"Audit(Audit { files: ["a.bin", "b.bin", "c.bin"], joined: false, json: true, complete: false })"#,
    ),
    (
        "olt audit --complete a.bin b.bin",
        r#"Audit(Audit { files: ["a.bin", "b.bin"], joined: false, json: false, complete: true })"#,
    ),
    (
        "olt info r.bin --format text",
        r#"Show(Show { view: Info, files: ["r.bin"], joined: false, part: Part { port: None, alloc: None, frame: None, from: None, to: None }, svg: None, no_clobber: false, json: false })"#,
    ),
    (
        "olt info --format json r.bin",
        r#"Show(Show { view: Info, files: ["r.bin"], joined: false, part: Part { port: None, alloc: None, frame: None, from: None, to: None }, svg: None, no_clobber: false, json: true })"#,
    ),
    (
        "olt rates r.bin",
        r#"Show(Show { view: Rates, files: ["r.bin"], joined: false, part: Part { port: None, alloc: None, frame: None, from: None, to: None }, svg: None, no_clobber: false, json: false })"#,
    ),
    (
        "olt rates r.bin --port 63 --alloc 16383 --from 0 --to 18446744073709551615 --format json",
        r#"Show(Show { view: Rates, files: ["r.bin"], joined: false, part: Part { port: Some(63), alloc: Some(16383), frame: None, from: Some(0), to: Some(18446744073709551615) }, svg: None, no_clobber: false, json: true })"#,
    ),
    (
        "olt why --port=0 --frame=7 --alloc=1024 r.bin",
        r#"Show(Show { view: Why, files: ["r.bin"], joined: false, part: Part { port: Some(0), alloc: Some(1024), frame: Some(7), from: None, to: None }, svg: None, no_clobber: false, json: false })"#,
    ),
    (
        "olt dump r.bin --port 2",
        r#"Show(Show { view: Dump, files: ["r.bin"], joined: false, part: Part { port: Some(2), alloc: None, frame: None, from: None, to: None }, svg: None, no_clobber: false, json: false })"#,
    ),
    (
        "olt loads r.bin --alloc 1024 --from 3 --to 9",
        r#"Show(Show { view: Loads, files: ["r.bin"], joined: false, part: Part { port: None, alloc: Some(1024), frame: None, from: Some(3), to: Some(9) }, svg: None, no_clobber: false, json: false })"#,
    ),
    (
        "olt picture r.bin --frame 5 --svg p.svg",
        r#"Show(Show { view: Picture, files: ["r.bin"], joined: false, part: Part { port: None, alloc: None, frame: Some(5), from: None, to: None }, svg: Some("p.svg"), no_clobber: false, json: false })"#,
    ),
    (
        "olt loads --no-clobber r.bin --alloc 16383 --svg p.svg",
        r#"Show(Show { view: Loads, files: ["r.bin"], joined: false, part: Part { port: None, alloc: Some(16383), frame: None, from: None, to: None }, svg: Some("p.svg"), no_clobber: true, json: false })"#,
    ),
    (
        "olt audit b.bin --joined a.bin",
        r#"Audit(Audit { files: ["b.bin", "a.bin"], joined: true, json: false, complete: false })"#,
    ),
    (
        "olt why --joined a.bin b.bin c.bin",
        r#"Show(Show { view: Why, files: ["a.bin", "b.bin", "c.bin"], joined: true, part: Part { port: None, alloc: None, frame: None, from: None, to: None }, svg: None, no_clobber: false, json: false })"#,
    ),
    (
        "olt info --joined a.bin",
        r#"Show(Show { view: Info, files: ["a.bin"], joined: true, part: Part { port: None, alloc: None, frame: None, from: None, to: None }, svg: None, no_clobber: false, json: false })"#,
    ),
    (
        "olt migrate a.bin b.bin",
        r#"Migrate(Migration { file: "a.bin", out: "b.bin", no_clobber: false })"#,
    ),
    (
        "olt migrate --no-clobber a.bin b.bin",
        r#"Migrate(Migration { file: "a.bin", out: "b.bin", no_clobber: true })"#,
    ),
];

#[test]
fn reads_each_job(rt: HostRuntime) {
    for table in [LINES.as_slice(), RUNS.as_slice(), RECORDINGS.as_slice()] {
        for (line, wanted) in table {
            assert!(rt; names(rt.alloc(), line, wanted), "{line}");
        }
    }
}

#[test]
fn refuses_numbers_out_of_range(rt: HostRuntime) {
    for line in [
        "olt run --config a.toml --listen 127.0.0.1:0 --maps 0",
        "olt run --config a.toml --listen 127.0.0.1:0 --maps 1000000001",
        "olt run --config a.toml --listen 127.0.0.1:0 --maps x",
        "olt run --config a.toml --listen 127.0.0.1:0 --maps 1 --pace 0",
        "olt run --config a.toml --listen 127.0.0.1:0 --maps 1 --pace 1000001",
        "olt run --config a.toml --listen 127.0.0.1:0 --operators 0",
        "olt run --config a.toml --listen 127.0.0.1:0 --operators 33",
        "olt plan --flush 3601",
        "olt run --config a.toml --listen 127.0.0.1:0 --maps 1 --flush 3601",
        "olt units --config a.toml --connect 127.0.0.1:1 --wait 3601",
        "olt units --config a.toml --connect 127.0.0.1:1 --port 64",
        "olt rates r.bin --port 64",
        "olt rates r.bin --alloc 1023",
        "olt rates r.bin --alloc 16384",
        "olt rates r.bin --from x",
        "olt why r.bin --frame 18446744073709551616",
    ] {
        let kind = refusal(rt.alloc(), line);
        assert!(rt;
            kind == Some(ErrorKind::ValueValidation),
            "{line}: {kind:?}"
        );
    }
}

#[test]
fn needs_the_arguments_of_a_run(rt: HostRuntime) {
    for line in [
        "olt run --listen 127.0.0.1:0 --maps 3",
        "olt run --config a.toml --maps 3",
        "olt run",
        "olt units --config a.toml",
        "olt units --connect 127.0.0.1:1",
    ] {
        let kind = refusal(rt.alloc(), line);
        assert!(rt;
            kind == Some(ErrorKind::MissingRequiredArgument),
            "{line}: {kind:?}"
        );
    }
}

#[test]
fn refuses_other_words(rt: HostRuntime) {
    for (line, wanted) in [
        (
            "olt run --config a.toml --listen 127.0.0.1:0 --maps 3 --speed r",
            ErrorKind::UnknownArgument,
        ),
        (
            "olt run --config a.toml --listen 127.0.0.1:0 --maps 3 --maps 3",
            ErrorKind::ArgumentConflict,
        ),
        (
            "olt run --config a.toml --listen 127.0.0.1:0 --maps",
            ErrorKind::InvalidValue,
        ),
        (
            "olt rum --config a.toml --listen 127.0.0.1:0 --maps 3",
            ErrorKind::InvalidSubcommand,
        ),
        ("olt dump r.bin --alloc 1024", ErrorKind::UnknownArgument),
        ("olt dump r.bin --port -1", ErrorKind::UnknownArgument),
        ("olt info r.bin --format xml", ErrorKind::InvalidSubcommand),
        (
            "olt run --config a.toml --listen 127.0.0.1:0 --maps 3 --units far",
            ErrorKind::InvalidSubcommand,
        ),
        ("olt audit r.bin --format xml", ErrorKind::InvalidSubcommand),
        ("olt info a.bin b.bin", ErrorKind::InvalidSubcommand),
        ("olt stop", ErrorKind::InvalidSubcommand),
        (
            "olt operate --control c.sock --control-tcp h:2",
            ErrorKind::InvalidSubcommand,
        ),
        (
            "olt stop --strict --control c.sock",
            ErrorKind::UnknownArgument,
        ),
        (
            "olt migrate --joined a.bin b.bin",
            ErrorKind::UnknownArgument,
        ),
        ("olt loads r.bin", ErrorKind::MissingRequiredArgument),
        ("olt audit", ErrorKind::MissingRequiredArgument),
        ("olt run --help", ErrorKind::DisplayHelp),
    ] {
        let kind = refusal(rt.alloc(), line);
        assert!(rt; kind == Some(wanted), "{line}: {kind:?}");
    }
}
