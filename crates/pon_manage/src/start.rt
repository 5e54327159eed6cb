//! The plant before the first line: its ports just opened, with the steps of the settings taken.

ghost use Rattle.std.specs.Prelude.{◌↔◌, ◌≡◌, IfOk, IsTrue, Err, length};
ghost use Rattle.pon_plant.specs.Plants.{IsPlantSize};
ghost use Rattle.pon_plant.specs.declared.fault.StepFault.TheVariants as fault;
ghost use Rattle.pon_descr.specs.declared.refusal.Refusal.TheVariants as refusal;
ghost use Rattle.pon_manage.specs.Planning.{IsStart};

use pon_descr::Refusal;
use pon_plant::{Plant, Step, StepFault};
use pon_port::{PortCfg, Reply};
use pon_units::FrameNo;
use std::alloc::{AllocError, Global};

fn is_out_of_memory(answer: &Result<Reply, StepFault>) -> bool
    ensures { IsTrue result ↔ (answer.now ≡ Err (fault.Refused refusal.OutOfMemory)) }
{
    match answer {
        Err(StepFault::Refused(Refusal::OutOfMemory)) => true,
        _ => false,
    }
}

/// Opens a port for each configuration and first frame, and takes the steps in order. A step that its port refuses
/// changes nothing. `Err` only if memory is refused.
pub(crate) fn start(
    alloc: Global,
    ports: &[(PortCfg, FrameNo)],
    steps: &[Step],
) -> Result<Plant, AllocError>
    requires { IsPlantSize (length ports.now) }
    ensures { IfOk result (λ plant. IsStart ports.now steps.now plant) }
{
    let mut plant = Plant::open(alloc, ports).map_err(|_| AllocError)?;
    let answers = plant.run(alloc, steps)?;
    if answers.iter().any(is_out_of_memory) {
        return Err(AllocError);
    }
    Ok(plant)
}
