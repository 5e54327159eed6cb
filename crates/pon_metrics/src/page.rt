//! The page of metrics.

ghost use Rattle.std.specs.Prelude.{◌≡◌, IfOk, string_bytes};
ghost use Rattle.pon_metrics.specs.Page.{build_text, head_of, metric_text, page_of, sample_of, samples_from};

use crate::metric::{METRICS, Metric};
use crate::port::PortMetrics;
use std::alloc::{AllocError, Global};

// Formats the two lines before the samples of a metric.
fn head_of(alloc: Global, metric: Metric) -> Result<String, AllocError>
    ensures { IfOk result (λ text. string_bytes text ≡ head_of metric) }
{
    let form = metric.form();
    let (name, kind, help) = (form.name, form.kind, metric.help());
    format!(in alloc; "# HELP {name} {help}\n# TYPE {name} {kind}\n")
}

// Formats the line of a port, if it has a value.
fn sample_of(
    alloc: Global,
    metric: Metric,
    port: usize,
    value: Option<u64>,
) -> Result<String, AllocError>
    ensures { IfOk result (λ text. string_bytes text ≡ sample_of metric port value) }
{
    let Some(value) = value else {
        return Ok(String::new(alloc));
    };
    let form = metric.form();
    let (name, factor) = (form.name, form.factor);
    format!(in alloc; "{name}{{port=\"{port}\"}} {value}{factor}\n")
}

// Formats the lines of all ports.
fn samples_of(alloc: Global, metric: Metric, ports: &[PortMetrics]) -> Result<String, AllocError>
    ensures { IfOk result (λ text. string_bytes text ≡ samples_from metric 0 ports.now) }
{
    let mut text = String::new(alloc);
    for (port, numbers) in ports.iter().enumerate() {
        let sample = sample_of(alloc, metric, port, metric.value(numbers))?;
        text.push_str(sample.as_str())?;
    }
    Ok(text)
}

// Formats the lines of a metric.
fn metric_text(alloc: Global, metric: Metric, ports: &[PortMetrics]) -> Result<String, AllocError>
    ensures { IfOk result (λ text. string_bytes text ≡ metric_text ports.now metric) }
{
    let mut text = head_of(alloc, metric)?;
    let samples = samples_of(alloc, metric, ports)?;
    text.push_str(samples.as_str())?;
    Ok(text)
}

// Formats the lines of the version.
fn build_text(alloc: Global, version: &str) -> Result<String, AllocError>
    ensures { IfOk result (λ text. string_bytes text ≡ build_text version.now) }
{
    format!(in alloc;
        "# HELP olt_build_info The version of the program.\n# TYPE olt_build_info gauge\nolt_build_info{{version=\"{version}\"}} 1\n"
    )
}

/// Formats the page of metrics of a program of this version, whose ports have these numbers, in order from port 0.
///
/// # Errors
///
/// Only if memory is refused.
pub fn page_of(alloc: Global, version: &str, ports: &[PortMetrics]) -> Result<String, AllocError>
    ensures { IfOk result (λ text. string_bytes text ≡ page_of version.now ports.now) }
{
    let mut text = build_text(alloc, version)?;
    for metric in METRICS {
        let lines = metric_text(alloc, metric, ports)?;
        text.push_str(lines.as_str())?;
    }
    Ok(text)
}
