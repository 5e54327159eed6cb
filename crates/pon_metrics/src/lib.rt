//! What a run shows to Prometheus: the numbers of its ports as a page of metrics in the text format 0.0.4, and the HTTP
//! service that answers with it.
//!
//! `METRICS` is the one table of metrics. The crate has no clock, socket or lock: it takes numbers, and requests of the kit's
//! HTTP server, and gives texts and answers.
#![tactic(auto)]

mod metric;
mod page;
mod port;
mod service;

pub use metric::{Form, METRICS, Metric};
pub use page::page_of;
pub use port::PortMetrics;
pub use service::{MetricsService, PATH};
