//! The table of metrics: the name, the type, the unit and the help of each, and its number of a port.

ghost use Rattle.std.specs.Prelude.{◌≡◌, codes};
ghost use Rattle.pon_metrics.specs.Metrics.{bit, factor_of, help_of, kind_of, name_of, value_of};

use crate::port::PortMetrics;
use Metric::{
    AllocIds, Capacity, Cause, Connections, Damaged, Dropped, Ended, Guaranteed, Late, Latest,
    Maps, Onus, Recorded, Refused, Reports, Unowned, Up,
};

/// A metric of each port.
#[derive(Clone, Copy, Debug, PartialEq, Eq)]
pub enum Metric {
    Up,
    Ended,
    Cause,
    Maps,
    Late,
    Latest,
    Reports,
    Refused,
    Damaged,
    Unowned,
    Recorded,
    Dropped,
    Connections,
    AllocIds,
    Onus,
    Guaranteed,
    Capacity,
}

/// The metrics, in the order of the page.
pub const METRICS: [Metric; 17] = [
    Up,
    Ended,
    Cause,
    Maps,
    Late,
    Latest,
    Reports,
    Refused,
    Damaged,
    Unowned,
    Recorded,
    Dropped,
    Connections,
    AllocIds,
    Onus,
    Guaranteed,
    Capacity,
];

/// How a metric is written.
#[derive(Clone, Copy, Debug, PartialEq, Eq)]
pub struct Form {
    /// Its name, with its base unit.
    pub name: &'static str,
    /// Its type: `counter` or `gauge`.
    pub kind: &'static str,
    /// What follows a number, so that it is in the base unit: an exponent of ten, or nothing.
    pub factor: &'static str,
}

// Returns the form of a counter.
fn counter(name: &'static str) -> Form
    ensures name { result.name.now ≡ name.now }
    ensures kind { result.kind.now ≡ codes "counter" }
    ensures factor { result.factor.now ≡ codes "" }
{
    let (kind, factor) = ("counter", "");
    Form { name, kind, factor }
}

// Returns the form of a gauge with this factor.
fn gauge(name: &'static str, factor: &'static str) -> Form
    ensures name { result.name.now ≡ name.now }
    ensures kind { result.kind.now ≡ codes "gauge" }
    ensures factor { result.factor.now ≡ factor.now }
{
    let kind = "gauge";
    Form { name, kind, factor }
}

// Returns 1 if the bit is set, otherwise 0.
fn bit(set: bool) -> u64
    ensures { result ≡ bit set }
{
    u64::from(set)
}

impl Metric {
    /// Returns how the metric is written.
    pub fn form(self) -> Form
        ensures name { result.name.now ≡ name_of self }
        ensures kind { result.kind.now ≡ kind_of self }
        ensures factor { result.factor.now ≡ factor_of self }
    {
        match self {
            Up => gauge("olt_port_up", ""),
            Ended => gauge("olt_port_ended", ""),
            Cause => gauge("olt_port_failure_cause", ""),
            Maps => counter("olt_port_maps_total"),
            Late => counter("olt_port_late_maps_total"),
            Latest => gauge("olt_port_map_lateness_max_seconds", "e-6"),
            Reports => counter("olt_port_reports_total"),
            Refused => counter("olt_port_refused_reports_total"),
            Damaged => counter("olt_port_garbled_records_total"),
            Unowned => counter("olt_port_unowned_records_total"),
            Recorded => counter("olt_port_recorded_chapters_total"),
            Dropped => counter("olt_port_dropped_chapters_total"),
            Connections => counter("olt_port_unit_connections_total"),
            AllocIds => gauge("olt_port_alloc_ids", ""),
            Onus => gauge("olt_port_onus", ""),
            Guaranteed => gauge("olt_port_guaranteed_bytes_per_second", ""),
            Capacity => gauge("olt_port_capacity_bytes_per_second", ""),
        }
    }

    /// Returns what the metric is, for a person.
    pub fn help(self) -> &'static str
        ensures { result.now ≡ help_of self }
    {
        match self {
            Up => "Whether the port is served: its worker makes maps.",
            Ended => "Whether the worker of the port has ended.",
            Cause => "Why the port is failed: the cause, 1 to 9, or 0 if it is not failed.",
            Maps => "Maps that the port made.",
            Late => "Maps that began late by the pace.",
            Latest => "Greatest delay of a map by the pace since the run began.",
            Reports => "Reports that the port accepted.",
            Refused => "Reports that the port refused.",
            Damaged => "Records that were dropped since their burst header is damaged.",
            Unowned => "Records that were dropped since no unit owns their burst.",
            Recorded => "Chapters of the port that were recorded.",
            Dropped => "Chapters of the port that were not recorded.",
            Connections => "Connections with units that the port served.",
            AllocIds => "Admitted Alloc-IDs.",
            Onus => "ONUs that own an Alloc-ID.",
            Guaranteed => "Sum of the fixed and assured rates of all Alloc-IDs.",
            Capacity => "Rate that overhead leaves for payload.",
        }
    }

    /// Returns the number of a port, before the factor. `None` if the port has none.
    pub fn value(self, port: &PortMetrics) -> Option<u64>
        ensures { result ≡ value_of self port.now }
    {
        match self {
            Up => Some(bit(port.up)),
            Ended => Some(bit(port.ended)),
            Cause => port.cause,
            Maps => Some(port.maps),
            Late => Some(port.late),
            Latest => Some(port.latest),
            Reports => Some(port.reports),
            Refused => Some(port.refused),
            Damaged => Some(port.damaged),
            Unowned => Some(port.unowned),
            Recorded => Some(port.recorded),
            Dropped => Some(port.dropped),
            Connections => Some(port.connections),
            AllocIds => port.alloc_ids,
            Onus => port.onus,
            Guaranteed => port.guaranteed,
            Capacity => port.capacity,
        }
    }
}
