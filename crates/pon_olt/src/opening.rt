//! What `plan` starts from: the ports and the steps of the settings, or one port without settings.

ghost use Rattle.std.specs.Prelude.{◌≡◌, ℕ, List, [], IfOk, length};
ghost use Rattle.pon_plant.specs.Plants.{IsPlantSize};
ghost use Rattle.toml.specs.Parse.{parse_document};
ghost use Rattle.pon_settings.specs.Ports.{IsOpening, Spells, openings, steps_from};

use crate::floors::tell_floors;
use pon_device::DeviceFault;
use pon_files::open_input;
use pon_job::{Failure, Named};
use pon_manage::Opening;
use pon_port::PortCfg;
use pon_settings::{Document, FaultySettings, Settings, SettingsFault};
use pon_units::{FrameNo, Gap, Profile};
use std::alloc::{AllocError, Global};
use std::io::{self, ErrorKind, Read};
use std::rt::Files;

/// The gap before each burst of the port that is opened without settings, in words.
const GAP_WITHOUT_SETTINGS: u16 = 16;

/// The burst profile of the port that is opened without settings.
const PROFILE_WITHOUT_SETTINGS: u8 = 0;

/// The first frame of the port that is opened without settings.
const FRAME_WITHOUT_SETTINGS: u64 = 0;

/// Maximum size of a settings file, in bytes. 64 ports with 512 Alloc-IDs each take about four million bytes.
const MAX_BYTES: u64 = 16_777_216;

/// Why nothing was opened, or a job was not done to its end.
#[derive(Drop)]
pub(crate) enum NotOpened {
    /// A device failed, as in reading the settings file, or memory was refused.
    Failed(Failure),
    /// The settings are refused. The text names the place, and the rule that is broken.
    Refused(String),
    /// The reader of the text went away.
    PipeClosed,
}

impl From<Failure> for NotOpened {
    ghost use Rattle.std.specs.Prelude.{◌≡◌};
    ghost use Rattle.pon_olt.specs.declared.opening.NotOpened.TheVariants.{Failed};

    ghost from_gives = { λ failure not_opened. not_opened ≡ Failed failure };

    fn from(failure: Failure) -> Self {
        NotOpened::Failed(failure)
    }
}

impl From<AllocError> for NotOpened {
    fn from(_: AllocError) -> Self {
        out_of_memory()
    }
}

fn out_of_memory() -> NotOpened {
    NotOpened::Failed(Failure::from(DeviceFault::Memory))
}

// Returns the port that is opened without settings.
fn only_port() -> (PortCfg, FrameNo)
    ensures gap { result.0.gap ≡ GAP_WITHOUT_SETTINGS }
    ensures profile { result.0.profile ≡ PROFILE_WITHOUT_SETTINGS }
    ensures frame { result.1 ≡ FRAME_WITHOUT_SETTINGS }
{
    let gap = Gap::new(GAP_WITHOUT_SETTINGS).unwrap();
    let profile = Profile::new(PROFILE_WITHOUT_SETTINGS).unwrap();
    (
        PortCfg { gap, profile },
        FrameNo::new(FRAME_WITHOUT_SETTINGS),
    )
}

/// Returns one port without Alloc-IDs. `Err` only if memory is refused.
pub(crate) fn without_settings(alloc: Global) -> Result<Opening, AllocError>
    ensures ports { IfOk result (λ opening. IsPlantSize (length opening.ports.items)) }
    ensures steps { IfOk result (λ opening. opening.steps.items ≡ []) }
{
    let ports = vec![in alloc; only_port()]?;
    let steps = Vec::new(alloc);
    Ok(Opening { ports, steps })
}

// Returns the ports of settings, and the steps that admit their rows. `Err` only if memory is refused.
fn opening_of(alloc: Global, settings: &Settings) -> Result<Opening, AllocError>
    ensures size { IfOk result (λ opening. IsPlantSize (length opening.ports.items)) }
    ensures ports { IfOk result (λ opening. opening.ports.items ≡ openings settings.now) }
    ensures steps { IfOk result (λ opening. opening.steps.items ≡ steps_from 0 settings.now) }
{
    prove!(!settings.ports().is_empty());
    let ports = settings.openings(alloc)?;
    let steps = settings.steps(alloc)?;
    Ok(Opening { ports, steps })
}

fn refusal(alloc: Global, faulty: &FaultySettings<'_>) -> NotOpened {
    if let SettingsFault::Memory = faulty.fault() {
        return out_of_memory();
    }
    match lines_about(alloc, faulty) {
        Ok(lines) => NotOpened::Refused(lines),
        Err(_) => out_of_memory(),
    }
}

// Returns the lines that explain a fault. `Err` only if memory is refused.
fn lines_about(alloc: Global, faulty: &FaultySettings<'_>) -> Result<String, AllocError> {
    let line = faulty.explain(alloc)?;
    match faulty.explain_further(alloc)? {
        Some(further) => format!(in alloc; "{line}\n{further}"),
        None => Ok(line),
    }
}

fn refused_as(alloc: Global, rule: &str) -> NotOpened {
    match format!(in alloc; "  {rule}") {
        Ok(line) => NotOpened::Refused(line),
        Err(_) => out_of_memory(),
    }
}

// Reads the settings file `name`. Returns `Failed` with `Read` if it cannot be opened or read.
fn text_of<R: Files>(rt: &R, alloc: Global, name: &str) -> Result<String, NotOpened> {
    let named = Named::Settings(name);
    let file = open_input(rt, alloc, named)?;
    match io::read_to_string(alloc, file.take(MAX_BYTES + 1)) {
        Ok(text) if text.len() as u64 <= MAX_BYTES => Ok(text),
        Ok(_) => Err(refused_as(alloc, "the file has more than 16777216 bytes")),
        Err(error) if error.kind() == ErrorKind::InvalidData => {
            Err(refused_as(alloc, "the file is not UTF-8"))
        }
        Err(error) => {
            let failure = Failure::of(alloc, DeviceFault::Read, named, &error);
            Err(NotOpened::Failed(failure))
        }
    }
}

/// Reads the settings file `name` and returns the settings that its text spells.
pub(crate) fn settings_of<R: Files>(
    rt: &R,
    alloc: Global,
    name: &str,
) -> Result<Settings, NotOpened>
    ensures { IfOk result (λ s. (text : List ℕ) × Spells (parse_document text) s) }
{
    let text = text_of(rt, alloc, name)?;
    let document = Document::parse(alloc, text.as_str())?;
    match document.settings(alloc) {
        Ok(settings) => Ok(settings),
        Err(faulty) => Err(refusal(alloc, &faulty)),
    }
}

/// Reads the settings file `name` and returns the ports and the steps that its text spells. Prints which best-effort rows have
/// no floor.
pub(crate) fn with_settings<R: Files + Eprint>(
    rt: &R,
    alloc: Global,
    name: &str,
) -> Result<Opening, NotOpened>
    ensures size { IfOk result (λ opening. IsPlantSize (length opening.ports.items)) }
    ensures spelled { IfOk result (λ opening. (text : List ℕ)
        × IsOpening text opening.ports.items opening.steps.items) }
{
    let settings = settings_of(rt, alloc, name)?;
    tell_floors(rt, alloc, &settings)?;
    Ok(opening_of(alloc, &settings)?)
}
