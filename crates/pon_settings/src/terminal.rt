//! The settings of a terminal, as they were read.

ghost use Rattle.std.specs.Prelude.{◌≡◌, ◌++◌, length, map, IfOk, OnOk};
ghost use Rattle.pon_settings.specs.Ports.{IsPortCount, admission, openings, steps_from};

use crate::port::PortSettings;
use crate::row::SettingsRow;
use pon_admit::{Event, PortCfg, Step};
use pon_units::{FrameNo, PortNo};
use std::alloc::{AllocError, Global};
use std::marker::Model;

/// The settings of a terminal: its ports, 1 to 64, numbered from 0 in this order.
#[derive(Drop)]
pub struct Settings {
    pub(crate) ports: Vec<PortSettings>,
}

impl Model for Settings {
    ghost use Rattle.std.specs.Prelude.{List, length};
    ghost use Rattle.pon_settings.specs.Ports.{IsPortCount, PortSettings};

    ghost Value = { List PortSettings };

    ghost view = { λ a. a.ports.items };

    ghost invariant = { λ a. IsPortCount (length a.ports.items) };
}

// Appends the steps that admit the rows of a port. `Err` only if memory is refused.
fn add_steps(steps: &mut Vec<Step>, port: PortNo, rows: &[SettingsRow]) -> Result<(), AllocError>
    ensures { OnOk result
        (steps.new.items ≡ steps.old.items ++ map (admission port) rows.now) }
{
    for settings_row in rows {
        let event = Event::Admit(settings_row.row);
        steps.push(Step { port, event })?;
    }
    Ok(())
}

impl Settings {
    /// The ports in order, 1 to 64.
    pub fn ports(&self) -> &[PortSettings]
        ensures value { result.now ≡ self.now }
        ensures count { IsPortCount (length self.now) }
    {
        &self.ports
    }

    /// Returns the configuration and the first frame of each port, in order.
    ///
    /// # Errors
    ///
    /// `AllocError` only if memory is refused.
    pub fn openings(&self, alloc: Global) -> Result<Vec<(PortCfg, FrameNo)>, AllocError>
        ensures { IfOk result (λ all. all.items ≡ openings self.now) }
    {
        self.ports.iter().map(|port| port.opening()).collect(alloc)
    }

    /// Returns the steps that admit the rows, port by port, in order.
    ///
    /// # Errors
    ///
    /// `AllocError` only if memory is refused.
    pub fn steps(&self, alloc: Global) -> Result<Vec<Step>, AllocError>
        ensures { IfOk result (λ steps. steps.items ≡ steps_from 0 self.now) }
    {
        let mut steps = Vec::new(alloc);
        for (i, port) in self.ports.iter().enumerate() {
            add_steps(&mut steps, PortNo::at(i), port.rows())?;
        }
        Ok(steps)
    }
}
