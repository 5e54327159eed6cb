//! The bytes of a check file, split into lines.

ghost use Rattle.std.specs.Prelude.{◌≡◌, ◌<◌, ◌-◌, ◌^◌, IfOk};
ghost use Rattle.pon_device.specs.Streams.{TellsRead};
ghost use Rattle.pon_text.specs.Lines.{file_lines};
ghost use Rattle.pon_check_file.specs.Stages.{EndsLine, IsOpen, ReadsFile, TakesByte, goes_on, lines_before, said, size};

use crate::file::Parsed;
use crate::stage::Stage;
use pon_device::{DevRead, DeviceFault, next_byte};
use pon_text::without_return;
use std::alloc::{AllocError, Global};

/// Maximum number of bytes of a line that fits, without its carriage return and line feed: a set of 512 indexes of 20
/// digits. No longer line fits anywhere.
pub const MAX_LINE_BYTES: usize = 10_761;

// The parsed whole lines, and the bytes of the open line after them.
#[derive(Drop)]
struct Open {
    stage: Stage,
    line: Vec<u8>,
}

// The result of one more byte.
#[derive(Drop)]
enum Taken {
    // The file may still fit.
    Open(Open),
    // This line does not fit, whatever bytes follow.
    Syntax(u64),
}

impl Open {
    // Ends the open line.
    fn end_line(self, alloc: Global) -> Result<Taken, AllocError>
        requires open { IsOpen self }
        requires lines { lines_before self.stage < 2 ^ 64 - 1 }
        ensures { IfOk result (EndsLine self) }
    {
        let number = self.stage.line();
        let mut line = self.line;
        match self.stage.take(alloc, without_return(line.as_slice()))? {
            Some(stage) => {
                line.clear();
                Ok(Taken::Open(Open { stage, line }))
            }
            None => Ok(Taken::Syntax(number)),
        }
    }

    // Reads the next byte.
    fn take(self, alloc: Global, byte: u8) -> Result<Taken, AllocError>
        requires open { IsOpen self }
        requires lines { size self < 2 ^ 64 - 1 }
        ensures { IfOk result (TakesByte self byte) }
    {
        if byte == b'\n' {
            return self.end_line(alloc);
        }
        if self.line.len() > MAX_LINE_BYTES {
            return Ok(Taken::Syntax(self.stage.line()));
        }
        let mut line = self.line;
        line.push(byte)?;
        Ok(Taken::Open(Open {
            stage: self.stage,
            line,
        }))
    }

    // Ends the file; the open line counts if it is not empty.
    fn end(self, alloc: Global) -> Result<Parsed, AllocError>
        requires open { IsOpen self }
        requires lines { size self < 2 ^ 64 - 1 }
        ensures { IfOk result (λ p. goes_on self.stage (file_lines self.line.items) ≡ said p) }
    {
        if self.line.is_empty() {
            return Ok(self.stage.end());
        }
        match self.end_line(alloc)? {
            Taken::Open(open) => Ok(open.stage.end()),
            Taken::Syntax(line) => Ok(Parsed::Syntax(line)),
        }
    }
}

/// Reads a check file, one byte a call, to the end of the input or until a line does not fit.
///
/// `Read` if the reader fails or 2^64 - 1 reads reach no result, and `Memory` if memory is refused.
pub(crate) fn read_file<R: DevRead>(alloc: Global, reader: &mut R) -> Result<Parsed, DeviceFault>
    ensures text { ReadsFile (R.remaining reader.old) (R.remaining reader.new) result }
    ensures read { TellsRead (R.calls reader.old) (R.calls reader.new) (R.failures reader.old)
        (R.failures reader.new) result }
{
    let mut open = Open {
        stage: Stage::First,
        line: Vec::new(alloc),
    };
    for _turn in 0..u64::MAX {
        match next_byte(reader) {
            Err(_) => return Err(DeviceFault::Read),
            Ok(None) => {
                return match open.end(alloc) {
                    Ok(parsed) => Ok(parsed),
                    Err(_) => Err(DeviceFault::Memory),
                };
            }
            Ok(Some(byte)) => match open.take(alloc, byte) {
                Ok(Taken::Open(next)) => open = next,
                Ok(Taken::Syntax(line)) => return Ok(Parsed::Syntax(line)),
                Err(_) => return Err(DeviceFault::Memory),
            },
        }
    }
    Err(DeviceFault::Read)
}
