//! The ports with which a run starts.

ghost use Rattle.std.specs.Prelude.{◌≡◌, IfSome, None, Some, length, true};
ghost use Rattle.std.specs.Vec.{vec_len};

use pon_port::Port;
use pon_settings::Settings;
use std::marker::Model;

/// The ports of the settings at the start of a run: opened anew, with the rows of the settings, or ports that go on.
///
/// Contracts see the settings.
#[derive(Drop)]
pub struct RunPorts {
    pub(crate) settings: Settings,
    pub(crate) resumed: Option<Vec<Port>>,
}

impl Model for RunPorts {
    ghost use Rattle.std.specs.Prelude.{◌≡◌, IfSome, List, length};
    ghost use Rattle.std.specs.Vec.{vec_len};
    ghost use Rattle.pon_settings.specs.Ports.{PortSettings};

    ghost Value = { List PortSettings };

    ghost view = { λ p. p.settings };

    ghost invariant = { λ p. IfSome p.resumed (λ ports. vec_len ports ≡ length p.settings) };
}

impl RunPorts {
    /// Has a run open the ports of the settings, and admit their rows.
    pub fn opened(settings: Settings) -> Self
        ensures { result ≡ settings }
    {
        RunPorts {
            settings,
            resumed: None,
        }
    }

    /// Has a run go on with these ports, one for each port of the settings, in order. Their rows are not admitted.
    pub fn resumed(settings: Settings, ports: Vec<Port>) -> Self
        requires { vec_len ports ≡ length settings }
        ensures { result ≡ settings }
    {
        RunPorts {
            settings,
            resumed: Some(ports),
        }
    }
}
