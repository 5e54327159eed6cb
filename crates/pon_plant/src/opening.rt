ghost use Rattle.std.specs.Prelude.{◌≡◌, All, IfOk};
ghost use Rattle.pon_history.specs.Chapters.{IsLawfulChapter};
ghost use Rattle.pon_plant.specs.Plants.{opened_port, opened_ports};

use pon_admit::PortCfg;
use pon_port::Port;
use pon_units::FrameNo;
use std::alloc::{AllocError, Global};

// Opens a port without entries. Its history is lawful. `Err` only if memory is refused.
fn open_port(alloc: Global, cfg: PortCfg, first: FrameNo) -> Result<Port, AllocError>
    ensures opened { IfOk result (λ port. port ≡ opened_port (cfg, first)) }
    ensures lawful { IfOk result (λ port. IsLawfulChapter port) }
{
    let port = Port::open(alloc, cfg, first)?;
    prove!(port.history().is_empty());
    Ok(port)
}

/// Opens a port for each configuration and first frame, in order. `Err` only if memory is refused.
pub(crate) fn open_ports(
    alloc: Global,
    ports: &[(PortCfg, FrameNo)],
) -> Result<Vec<Port>, AllocError>
    ensures opened { IfOk result (λ opened. opened.items ≡ opened_ports ports.now) }
    ensures lawful { IfOk result (λ opened. All IsLawfulChapter opened.items) }
{
    let mut opened = Vec::with_capacity(alloc, ports.len())?;
    for (cfg, first) in ports {
        let port = open_port(alloc, *cfg, *first)?;
        opened.push_reserved(port);
    }
    Ok(opened)
}
