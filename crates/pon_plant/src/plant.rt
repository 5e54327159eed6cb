ghost use Rattle.std.specs.Prelude.{◌≡◌, ◌↔◌, true};
ghost use Rattle.pon_plant.specs.Turning.{IsFullFor};

use crate::fault::{PlantFault, StepFault};
use crate::opening::open_ports;
use pon_admit::{Event, PortCfg, Step};
use pon_descr::Refusal;
use pon_port::{Chapter, Port};
use pon_state::{MAX_ENTRIES, Reply, check};
use pon_units::{FrameNo, MAX_PORTS, PortNo};
use std::alloc::{AllocError, Global};
use std::marker::Model;

// Returns whether a port refuses an event only because its chapter is full, and the chapter is not the last one.
fn is_full_for(port: &Port, event: &Event) -> bool
    ensures { (result ≡ true) ↔ IsFullFor port.now event.now }
{
    let kept = port.history().len();
    if kept < MAX_ENTRIES || port.chapter_number() == u64::MAX {
        return false;
    }
    matches!(check(port.state(), kept, event), Err(Refusal::ChapterFull))
}

/// The ports of a line terminal, 1 to 64, numbered from 0.
///
/// Contracts see a plant as the list of its ports' chapters. The type guarantees that each chapter is lawful.
#[derive(Drop)]
pub struct Plant {
    ports: Vec<Port>,
}

impl Model for Plant {
    ghost use Rattle.std.specs.Prelude.{List};
    ghost use Rattle.pon_history.specs.Chapters.{Chapter};
    ghost use Rattle.pon_plant.specs.Plants.{IsPlant};

    ghost Value = { List Chapter };

    ghost view = { λ p. p.ports.items };

    ghost invariant = { λ p. IsPlant p.ports.items };
}

impl Plant {
    ghost use Rattle.std.specs.Prelude.{◌≡◌, ◌≤◌, ◌↔◌, length, true, Err, IfOk, IfErr, IfSome, MatchOption, OnErr, OnOk, Some, slice_get};
    ghost use Rattle.pon_plant.specs.Plants.{IsPlant, IsPlantSize, TellsOpening, opened_ports};
    ghost use Rattle.pon_plant.specs.Answers.{IsStepAnswer, KeepsStep, after_step};
    ghost use Rattle.pon_plant.specs.Runs.{Ran};
    ghost use Rattle.pon_plant.specs.Turning.{IsFullAt, IsTurnFault, TurnsPort};

    /// Opens a port for each configuration and first frame, numbered from 0 in this order.
    ///
    /// # Errors
    ///
    /// `Ports` exactly when there are none or more than 64. `Memory` only if memory is refused.
    pub fn open(alloc: Global, ports: &[(PortCfg, FrameNo)]) -> Result<Plant, PlantFault>
        ensures ok { IfOk result (λ plant. plant ≡ opened_ports ports.now) }
        ensures size { IfOk result (λ plant. IsPlantSize (length ports.now)) }
        ensures err { IfErr result (λ fault. TellsOpening (length ports.now) fault) }
    {
        if ports.is_empty() || ports.len() > MAX_PORTS {
            return Err(PlantFault::Ports);
        }
        let ports = open_ports(alloc, ports)?;
        Ok(Plant { ports })
    }

    /// Number of ports, 1 to 64.
    pub fn count(&self) -> usize
        ensures count { result ≡ length self.now }
        ensures lawful { IsPlant self.now }
    {
        self.ports.len()
    }

    /// Returns the port with this number. `None` exactly when the plant has no such port.
    pub fn port(&self, port: PortNo) -> Option<&Port>
        ensures { MatchOption result (length self.now ≤ port)
            (λ p. slice_get self.now port ≡ Some p.now) }
    {
        self.ports.get(usize::from(port.get()))
    }

    /// Takes the event of a step at its port. An accepted step changes only its own port.
    ///
    /// # Errors
    ///
    /// `NoSuchPort` exactly when the plant has no such port. `Refused` with the first refusal of the event, or with
    /// `OutOfMemory` if no check refuses but memory is refused. After an error the plant is unchanged.
    pub fn step(&mut self, step: Step) -> Result<Reply, StepFault>
        ensures answer { IsStepAnswer (slice_get self.old step.port) step.event result }
        ensures plant { self.new ≡ after_step self.old step result }
        ensures lawful { IsPlant self.new }
    {
        let Some(port) = self.ports.get_mut(usize::from(step.port.get())) else {
            return Err(StepFault::NoSuchPort);
        };
        port.take(step.event).map_err(StepFault::Refused)
    }

    /// Takes the event of a step at its port, as [`Plant::step`] does, but returns no copy of its reply. Returns the
    /// index of the entry, which is the last one of the port.
    ///
    /// # Errors
    ///
    /// As for [`Plant::step`].
    pub fn keep(&mut self, step: Step) -> Result<usize, StepFault>
        ensures index { IfOk result (λ index. IfSome (slice_get self.old step.port)
            (λ c. index ≡ length c.entries)) }
        ensures ok { OnOk result (KeepsStep self.old step self.new) }
        ensures refused { IfErr result (λ fault. IsStepAnswer
            (slice_get self.old step.port) step.event (Err fault)) }
        ensures err { OnErr result (self.new ≡ self.old) }
        ensures lawful { IsPlant self.new }
    {
        let place = usize::from(step.port.get());
        let Some(port) = self.ports.get_mut(place) else {
            return Err(StepFault::NoSuchPort);
        };
        port.keep(step.event).map_err(StepFault::Refused)
    }

    /// Takes steps in order and returns their answers in the same order. A refused step does not stop the run. Room for
    /// all answers is reserved first.
    ///
    /// # Errors
    ///
    /// `AllocError` only if the memory for the answers is refused; then the plant is unchanged.
    pub fn run(
        &mut self,
        alloc: Global,
        steps: &[Step],
    ) -> Result<Vec<Result<Reply, StepFault>>, AllocError>
        ensures ok { IfOk result (λ answers. Ran self.old steps.now answers.items self.new) }
        ensures err { OnErr result (self.new ≡ self.old) }
        ensures lawful { IsPlant self.new }
    {
        // The histories are lawful, also after a run without steps or without room.
        prove!(self.count() <= MAX_PORTS);
        let mut answers = Vec::with_capacity(alloc, steps.len())?;
        for step in steps {
            let answer = self.step(Step {
                port: step.port,
                event: step.event.copy(),
            });
            answers.push_reserved(answer);
        }
        Ok(answers)
    }

    /// Returns whether the port of this number refuses an event only because its chapter is full, and [`Plant::turn`]
    /// would begin another one. `false` if the plant has no such port.
    pub fn is_full(&self, port: PortNo, event: &Event) -> bool
        ensures { (result ≡ true) ↔ IsFullAt self.now port event.now }
    {
        match self.port(port) {
            Some(port) => is_full_for(port, event),
            None => false,
        }
    }

    /// Turns a port: returns its chapter, and begins the next one in the same state.
    ///
    /// # Errors
    ///
    /// `NoSuchPort` exactly when the plant has no such port. Otherwise `Refused`: with `ChapterFull` exactly when the
    /// chapter has the last number, 2^64 - 1, or with `OutOfMemory`, only if memory is refused. After an error nothing
    /// has changed.
    pub fn turn(&mut self, port: PortNo) -> Result<Chapter, StepFault>
        ensures ok { IfOk result (λ chapter. TurnsPort self.old port chapter self.new) }
        ensures refused { IfErr result (λ fault. IsTurnFault (slice_get self.old port) fault) }
        ensures err { OnErr result (self.new ≡ self.old) }
        ensures lawful { IsPlant self.new }
    {
        let Some(full) = self.ports.get_mut(usize::from(port.get())) else {
            return Err(StepFault::NoSuchPort);
        };
        let turned = full.turn();
        let _entries = full.history();
        turned.map_err(StepFault::Refused)
    }

    /// Returns the ports, in order.
    pub fn into_ports(self) -> Vec<Port>
        ensures { result.items ≡ self }
    {
        let Plant { ports } = self;
        ports
    }
}
