//! The ports with which a run starts: opened anew, or going on where a recording ends.

ghost use Rattle.std.specs.Prelude.{◌≡◌, IfOk, IfSome, length};
ghost use Rattle.std.specs.Vec.{vec_len};

use crate::left_recording::LeftRecording;
use crate::opening::NotOpened;
use pon_admit::Event;
use pon_audit::Verdict;
use pon_descr::Cause;
use pon_device::DeviceFault;
use pon_files::LockFile;
use pon_job::{Failure, Resume};
use pon_port::Port;
use pon_resume::{LastChapters, NotResumed, changes_to, is_other_line};
use pon_run::RunPorts;
use pon_settings::{PortSettings, Settings};
use pon_units::PortNo;
use std::alloc::{AllocError, Global};
use std::rt::Files;
use std::thread::Threads;

/// The cause of the failure that a resumed port takes, since its units remember less than its window.
const CAUSE_OF_RESUMING: u8 = 1;

/// What ports that go on are opened by: the handle of the runtime, the allocator, the last chapter of each port, and how they go
/// on.
#[derive(Drop)]
struct Resuming<'a, R> {
    rt: &'a R,
    alloc: Global,
    last: &'a LastChapters,
    // Whether the ports keep their reports and their window, and whether they change as the settings say.
    warm: bool,
    apply: bool,
}

// Returns whether ports go on after a recording with this verdict, which may be cut if that is wanted. Standard error says why
// not, or what is lost.
fn is_accepted(rt: &impl Eprint, name: &str, verdict: &Verdict, truncated: bool) -> bool {
    match *verdict {
        Verdict::Good { .. } => true,
        Verdict::Truncated { .. } if truncated => {
            let _ = eprintln!(rt;
                "olt: recording {name}: {verdict}; what follows its whole chapters is lost"
            );
            true
        }
        Verdict::Truncated { .. } => {
            let _ = eprintln!(rt;
                "error: recording {name}: {verdict}\n  --resume-truncated goes on after its last whole chapters"
            );
            false
        }
        _ => {
            let _ = eprintln!(rt; "error: recording {name}: {verdict}");
            false
        }
    }
}

impl<'a, R: Eprint> Resuming<'a, R> {
    // Opens a port of the settings that is not in the recording, with its rows. `None` if memory is refused for one.
    fn open_new(&self, number: PortNo, wanted: &PortSettings) -> Result<Option<Port>, AllocError> {
        let (cfg, first) = wanted.opening();
        let mut port = Port::open(self.alloc, cfg, first)?;
        for row in wanted.rows() {
            if port.take(Event::Admit(row.row)).is_err() {
                return Err(AllocError);
            }
        }
        let _ = eprintln!(self.rt;
            "olt: port {} is not in the recording, and begins anew",
            number.get()
        );
        Ok(Some(port))
    }

    // Has a port take an event. Returns whether it does; otherwise standard error says why.
    fn take(&self, number: PortNo, port: &mut Port, event: Event) -> bool {
        match port.take(event) {
            Ok(_reply) => true,
            Err(refusal) => {
                let _ = eprintln!(self.rt; "error: port {}: {refusal}", number.get());
                false
            }
        }
    }

    // Has a port without `--warm` take a failure of the line, and a line that is down be restored. Returns whether it does.
    fn restore(&self, number: PortNo, port: &mut Port) -> bool {
        if !self.warm && port.state().cause().is_none() {
            let Some(cause) = Cause::new(CAUSE_OF_RESUMING) else {
                return false;
            };
            if !self.take(number, port, Event::Fail { cause }) {
                return false;
            }
        }
        port.state().cause().is_none() || self.take(number, port, Event::Restore)
    }

    // Changes a port as its settings say, if that is wanted. Returns whether it then has the Alloc-IDs of the settings;
    // otherwise standard error says in what it differs.
    fn change(
        &self,
        number: PortNo,
        port: &mut Port,
        wanted: &PortSettings,
    ) -> Result<bool, AllocError> {
        let mut is_right = true;
        for change in changes_to(self.alloc, wanted, port.state())? {
            let _ = eprintln!(self.rt; "olt: port {}: {change}", number.get());
            is_right = self.apply && self.take(number, port, change.event()) && is_right;
        }
        if !is_right && !self.apply {
            let _ = eprintln!(self.rt;
                "error: port {} differs from the settings; --apply changes it",
                number.get()
            );
        }
        Ok(is_right)
    }

    // Has a port go on with its settings. `None` if it cannot; standard error says why.
    fn go_on(
        &self,
        number: PortNo,
        port: Port,
        wanted: &PortSettings,
    ) -> Result<Option<Port>, AllocError> {
        if is_other_line(wanted, port.state()) {
            let _ = eprintln!(self.rt;
                "error: port {} was recorded with another gap or profile than the settings have",
                number.get()
            );
            return Ok(None);
        }
        let mut port = port;
        if !self.restore(number, &mut port) || !self.change(number, &mut port, wanted)? {
            return Ok(None);
        }
        let (chapter, frame) = (port.chapter_number(), port.state().next_frame().get());
        let _ = eprintln!(self.rt;
            "olt: port {} goes on in chapter {chapter} with frame {frame}",
            number.get()
        );
        Ok(Some(port))
    }

    // Opens a port of the settings that goes on. `None` if it cannot; standard error says why.
    fn port_after(
        &self,
        number: PortNo,
        wanted: &PortSettings,
    ) -> Result<Option<Port>, AllocError> {
        match self.last.resume(self.alloc, number) {
            Ok(Some(port)) => self.go_on(number, port, wanted),
            Ok(None) => self.open_new(number, wanted),
            Err(NotResumed::Memory) => Err(AllocError),
            Err(why) => {
                let _ = eprintln!(self.rt; "error: port {}: {why}", number.get());
                Ok(None)
            }
        }
    }

    // Opens the ports of the settings, in order, each of which goes on if it is in the recording. `None` if one cannot.
    fn ports_after(&self, settings: &Settings) -> Result<Option<Vec<Port>>, AllocError>
        ensures { IfOk result (λ all. IfSome all (λ ports.
            vec_len ports ≡ length settings.now)) }
    {
        let mut ports = Vec::with_capacity(self.alloc, settings.ports().len())?;
        for (place, wanted) in settings.ports().iter().enumerate() {
            let Some(port) = self.port_after(PortNo::at(place), wanted)? else {
                return Ok(None);
            };
            ports.push(port)?;
        }
        Ok(Some(ports))
    }
}

// Returns whether the files of a recording may be resumed so; otherwise standard error says why.
fn may_resume(rt: &impl Eprint, left: &LeftRecording, resume: &Resume<'_>) -> bool {
    match left.part() {
        Some(part) if !resume.truncated => {
            let _ = eprintln!(rt;
                "error: {part} is of a run that did not end\n  --resume-truncated goes on after its last whole chapters"
            );
            false
        }
        _ => true,
    }
}

// Opens the ports of the settings after the recording in a file or a folder. `None` if they do not go on; standard error
// says why.
fn ports_after_recording<R: Files + Threads + Eprint + Sync>(
    rt: &R,
    alloc: Global,
    settings: &Settings,
    from: &str,
    resume: &Resume<'_>,
) -> Result<Option<Vec<Port>>, NotOpened>
where
    R::File: LockFile,
    ensures { IfOk result (λ all. IfSome all (λ ports. vec_len ports ≡ length settings.now)) }
{
    let left = LeftRecording::find(rt, alloc, from)?;
    if !may_resume(rt, &left, resume) {
        return Ok(None);
    }
    let ends = left.read_ends(rt, alloc)?;
    if !is_accepted(rt, from, &ends.verdict, resume.truncated) {
        return Ok(None);
    }
    let Some(last) = &ends.last else {
        return Ok(None);
    };
    let resuming = Resuming {
        rt,
        alloc,
        last,
        warm: resume.warm,
        apply: resume.apply,
    };
    let Some(ports) = resuming.ports_after(settings)? else {
        return Ok(None);
    };
    left.finish(rt, alloc, &ends.verdict)?;
    Ok(Some(ports))
}

/// Opens the ports with which a run starts: anew, or, with a recording, going on where it ends. `None` if they do not go on;
/// standard error says why.
///
/// # Errors
///
/// `Failed` with `Read` if the recording cannot be read, with `Write` if a part that a run left cannot be finished, and with
/// `Memory` if memory is refused.
pub(crate) fn ports_of_run<R: Files + Threads + Eprint + Sync>(
    rt: &R,
    alloc: Global,
    settings: Settings,
    resume: &Resume<'_>,
) -> Result<Option<RunPorts>, NotOpened>
where
    R::File: LockFile,
{
    let Some(from) = resume.from else {
        return Ok(Some(RunPorts::opened(settings)));
    };
    match ports_after_recording(rt, alloc, &settings, from, resume)? {
        Some(ports) => Ok(Some(RunPorts::resumed(settings, ports))),
        None => Ok(None),
    }
}
