//! What all steps of a run share.

use crate::arguments::RunArgs;
use crate::watch::RunWatch;
use pon_settings::Settings;
use pon_sockets::MetricsListener;
use pon_worker::Gate;
use std::alloc::Global;

/// What all steps of a run share: the handle of the runtime, the allocator, the settings of the ports, the arguments, the
/// gate that may hold workers back, what is seen of the ports, and where clients of the metrics connect, if they can.
#[derive(Drop)]
pub(crate) struct RunContext<'a, G: Gate, R> {
    pub(crate) rt: &'a R,
    pub(crate) alloc: Global,
    pub(crate) settings: &'a Settings,
    pub(crate) args: RunArgs<'a>,
    pub(crate) gate: &'a G,
    pub(crate) watch: &'a RunWatch,
    pub(crate) metrics: Option<&'a MetricsListener>,
}

impl<'a, G: Gate, R> RunContext<'a, G, R> {
    ghost use Rattle.std.specs.Prelude.{◌≡◌};

    pub(crate) fn new(
        rt: &'a R,
        alloc: Global,
        settings: &'a Settings,
        args: RunArgs<'a>,
        gate: &'a G,
        watch: &'a RunWatch,
        metrics: Option<&'a MetricsListener>,
    ) -> Self
        ensures settings { result.settings.now ≡ settings.now }
        ensures args { result.args ≡ args.entry }
    {
        RunContext {
            rt,
            alloc,
            settings,
            args,
            gate,
            watch,
            metrics,
        }
    }
}
