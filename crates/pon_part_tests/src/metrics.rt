// The page of metrics of two ports, line by line, and what its service answers.

use bytes::Bytes;
use http_server::{Config, Connection, serve};
use pon_metrics::{MetricsService, PortMetrics, page_of};
use std::alloc::Global;
use std::hash::RandomState;

/// A port with another number in each place.
const COUNTED: PortMetrics = PortMetrics {
    up: true,
    ended: false,
    cause: Some(7),
    maps: 101,
    reports: 102,
    refused: 103,
    damaged: 104,
    unowned: 105,
    late: 106,
    latest: 107,
    recorded: 108,
    dropped: 109,
    connections: 110,
    alloc_ids: Some(111),
    onus: Some(112),
    guaranteed: Some(113),
    capacity: Some(114),
};

/// A port that has ended, with the greatest counts, of whose state nothing is known.
const GREATEST: PortMetrics = PortMetrics {
    up: false,
    ended: true,
    cause: None,
    maps: u64::MAX,
    reports: u64::MAX,
    refused: u64::MAX,
    damaged: u64::MAX,
    unowned: u64::MAX,
    late: u64::MAX,
    latest: u64::MAX,
    recorded: u64::MAX,
    dropped: u64::MAX,
    connections: u64::MAX,
    alloc_ids: None,
    onus: None,
    guaranteed: None,
    capacity: None,
};

const PAGE: &str = r#"# HELP olt_build_info The version of the program.
# TYPE olt_build_info gauge
olt_build_info{version="1.2.3"} 1
# HELP olt_port_up Whether the port is served: its worker makes maps.
# TYPE olt_port_up gauge
olt_port_up{port="0"} 1
olt_port_up{port="1"} 0
# HELP olt_port_ended Whether the worker of the port has ended.
# TYPE olt_port_ended gauge
olt_port_ended{port="0"} 0
olt_port_ended{port="1"} 1
# HELP olt_port_failure_cause Why the port is failed: the cause, 1 to 9, or 0 if it is not failed.
# TYPE olt_port_failure_cause gauge
olt_port_failure_cause{port="0"} 7
# HELP olt_port_maps_total Maps that the port made.
# TYPE olt_port_maps_total counter
olt_port_maps_total{port="0"} 101
olt_port_maps_total{port="1"} 18446744073709551615
# HELP olt_port_late_maps_total Maps that began late by the pace.
# TYPE olt_port_late_maps_total counter
olt_port_late_maps_total{port="0"} 106
olt_port_late_maps_total{port="1"} 18446744073709551615
# HELP olt_port_map_lateness_max_seconds Greatest delay of a map by the pace since the run began.
# TYPE olt_port_map_lateness_max_seconds gauge
olt_port_map_lateness_max_seconds{port="0"} 107e-6
olt_port_map_lateness_max_seconds{port="1"} 18446744073709551615e-6
# HELP olt_port_reports_total Reports that the port accepted.
# TYPE olt_port_reports_total counter
olt_port_reports_total{port="0"} 102
olt_port_reports_total{port="1"} 18446744073709551615
# HELP olt_port_refused_reports_total Reports that the port refused.
# TYPE olt_port_refused_reports_total counter
olt_port_refused_reports_total{port="0"} 103
olt_port_refused_reports_total{port="1"} 18446744073709551615
# HELP olt_port_garbled_records_total Records that were dropped since their burst header is damaged.
# TYPE olt_port_garbled_records_total counter
olt_port_garbled_records_total{port="0"} 104
olt_port_garbled_records_total{port="1"} 18446744073709551615
# HELP olt_port_unowned_records_total Records that were dropped since no unit owns their burst.
# TYPE olt_port_unowned_records_total counter
olt_port_unowned_records_total{port="0"} 105
olt_port_unowned_records_total{port="1"} 18446744073709551615
# HELP olt_port_recorded_chapters_total Chapters of the port that were recorded.
# TYPE olt_port_recorded_chapters_total counter
olt_port_recorded_chapters_total{port="0"} 108
olt_port_recorded_chapters_total{port="1"} 18446744073709551615
# HELP olt_port_dropped_chapters_total Chapters of the port that were not recorded.
# TYPE olt_port_dropped_chapters_total counter
olt_port_dropped_chapters_total{port="0"} 109
olt_port_dropped_chapters_total{port="1"} 18446744073709551615
# HELP olt_port_unit_connections_total Connections with units that the port served.
# TYPE olt_port_unit_connections_total counter
olt_port_unit_connections_total{port="0"} 110
olt_port_unit_connections_total{port="1"} 18446744073709551615
# HELP olt_port_alloc_ids Admitted Alloc-IDs.
# TYPE olt_port_alloc_ids gauge
olt_port_alloc_ids{port="0"} 111
# HELP olt_port_onus ONUs that own an Alloc-ID.
# TYPE olt_port_onus gauge
olt_port_onus{port="0"} 112
# HELP olt_port_guaranteed_bytes_per_second Sum of the fixed and assured rates of all Alloc-IDs.
# TYPE olt_port_guaranteed_bytes_per_second gauge
olt_port_guaranteed_bytes_per_second{port="0"} 113
# HELP olt_port_capacity_bytes_per_second Rate that overhead leaves for payload.
# TYPE olt_port_capacity_bytes_per_second gauge
olt_port_capacity_bytes_per_second{port="0"} 114
"#;

/// The greatest number of ports.
const PORTS: usize = 64;

#[test]
fn a_page_has_each_line(rt: HostRuntime) {
    let page = page_of(rt.alloc(), "1.2.3", &[COUNTED, GREATEST]);
    assert!(rt; page.is_ok_and(|page| page.as_str() == PAGE));
}

#[test]
fn a_page_has_all_ports(rt: HostRuntime) {
    let page = page_of(rt.alloc(), "", &[COUNTED; PORTS]);
    let last = "olt_port_capacity_bytes_per_second{port=\"63\"} 114\n";
    assert!(rt; page.is_ok_and(|page| page.as_str().ends_with(last)));
}

// Requests, the begin of the answer to each, and its end.
static ASKED: [(&str, &str, &str); 9] = [
    (
        "GET /metrics HTTP/1.1\r\nHost: a\r\n\r\n",
        "HTTP/1.1 200 ",
        "\r\n\r\npage",
    ),
    (
        "GET /metrics?a=b HTTP/1.1\r\nHost: a\r\n\r\n",
        "HTTP/1.1 200 ",
        "\r\n\r\npage",
    ),
    (
        "GET http://a/metrics HTTP/1.1\r\nHost: a\r\n\r\n",
        "HTTP/1.1 200 ",
        "\r\n\r\npage",
    ),
    (
        "HEAD /metrics HTTP/1.1\r\nHost: a\r\n\r\n",
        "HTTP/1.1 200 ",
        "\r\n\r\n",
    ),
    (
        "GET /metrics/ HTTP/1.1\r\nHost: a\r\n\r\n",
        "HTTP/1.1 404 ",
        "at /metrics\n",
    ),
    (
        "HEAD / HTTP/1.1\r\nHost: a\r\n\r\n",
        "HTTP/1.1 404 ",
        "\r\n\r\n",
    ),
    (
        "POST / HTTP/1.1\r\nHost: a\r\n\r\n",
        "HTTP/1.1 404 ",
        "at /metrics\n",
    ),
    (
        "POST /metrics HTTP/1.1\r\nHost: a\r\n\r\n",
        "HTTP/1.1 405 ",
        "\r\n\r\n",
    ),
    (
        "get /metrics HTTP/1.1\r\nHost: a\r\n\r\n",
        "HTTP/1.1 405 ",
        "\r\n\r\n",
    ),
];

// Returns the answer to the requests. `None` if memory is refused, or the connection does not end after the first one.
fn answer_to(alloc: Global, keys: RandomState, requests: &str) -> Option<Vec<u8>> {
    let mut connection = Connection::new(alloc, keys, Config::default());
    let mut service = MetricsService {
        page: Bytes::from_static(b"page"),
    };
    let mut reader = requests.as_bytes();
    let mut answer = Vec::new(alloc);
    serve(&mut connection, &mut service, &mut reader, &mut answer).ok()?;
    Some(answer)
}

// Returns whether the answer to a request begins and ends so.
fn is_answered(answer: Option<Vec<u8>>, begin: &str, end: &str) -> bool {
    match answer {
        Some(answer) => { answer.starts_with(begin.as_bytes()) && answer.ends_with(end.as_bytes()) }
        None => false,
    }
}

#[test]
fn requests_are_answered(rt: HostRuntime) {
    let Ok(keys) = RandomState::new(&rt) else {
        return;
    };
    for (request, begin, end) in ASKED {
        let answer = answer_to(rt.alloc(), keys, request);
        assert!(rt; is_answered(answer, begin, end), "{request}");
    }
}

#[test]
fn a_second_request_is_not_answered(rt: HostRuntime) {
    let Ok(keys) = RandomState::new(&rt) else {
        return;
    };
    let two = "GET /metrics HTTP/1.1\r\nHost: a\r\n\r\nGET / HTTP/1.1\r\nHost: a\r\n\r\n";
    assert!(rt;
        is_answered(
            answer_to(rt.alloc(), keys, two),
            "HTTP/1.1 200 ",
            "\r\n\r\npage"
        )
    );
}
