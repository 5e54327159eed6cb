//! The answer to a check file.

ghost use Rattle.std.specs.Prelude.{◌≡◌, ◌∷◌, ◌++◌, [], Ok, IfOk, codes, decimal, string_bytes};
ghost use Rattle.pon_cert.specs.Problem.{IsProblem};
ghost use Rattle.pon_check.specs.Faults.{cert_fault_text};
ghost use Rattle.pon_device.specs.Streams.{TellsRead, TellsWrite};
ghost use Rattle.pon_check_file.specs.CheckFiles.{Checked, IsFileAnswer, ReadsToEnd};
ghost use Rattle.pon_check_file.specs.Stages.{IsSaid, said};

use crate::file::{CheckFile, Parsed};
use crate::reading::read_file;
use pon_check::{CertFault, check_class};
use pon_device::{DevRead, DevWrite, DeviceFault, write_text};
use std::alloc::{AllocError, Global};

// Whether a file is accepted, and its answer line.
#[derive(Drop)]
struct Answer {
    accepted: bool,
    line: String,
}

fn syntax_line(alloc: Global, line: u64) -> Result<String, AllocError>
    ensures { IfOk result (λ text. string_bytes text
        ≡ codes "no Syntax " ++ decimal line ++ 10 ∷ []) }
{
    format!(in alloc; "no Syntax {line}\n")
}

fn fault_line(alloc: Global, fault: CertFault) -> Result<String, AllocError>
    ensures { IfOk result (λ text. string_bytes text ≡ codes "no " ++ cert_fault_text fault
        ++ 10 ∷ []) }
{
    format!(in alloc; "no {fault}\n")
}

fn yes_line(alloc: Global) -> Result<String, AllocError>
    ensures { IfOk result (λ text. string_bytes text ≡ codes "yes" ++ 10 ∷ []) }
{
    format!(in alloc; "yes\n")
}

// Checks the certificate of a file, and makes the answer.
fn judge(alloc: Global, file: &CheckFile) -> Result<Answer, AllocError>
    requires { IsProblem file.now.items.items file.now.surplus }
    ensures { IfOk result
        (λ a. IsFileAnswer (Ok (record {
          surplus = file.now.surplus;
          items = file.now.items.items;
          cert = file.now.cert;
        })) a.accepted (string_bytes a.line)) }
{
    match check_class(&file.items, file.surplus, &file.cert) {
        Ok(()) => Ok(Answer {
            accepted: true,
            line: yes_line(alloc)?,
        }),
        Err(fault) => Ok(Answer {
            accepted: false,
            line: fault_line(alloc, fault)?,
        }),
    }
}

// Makes the answer to a parsed file.
fn answer_of(alloc: Global, parsed: Parsed) -> Result<Answer, AllocError>
    requires { IsSaid parsed }
    ensures { IfOk result (λ a. IsFileAnswer (said parsed) a.accepted (string_bytes a.line)) }
{
    match parsed {
        Parsed::File(file) => judge(alloc, &file),
        Parsed::Syntax(line) => Ok(Answer {
            accepted: false,
            line: syntax_line(alloc, line)?,
        }),
    }
}

/// Reads a check file to the end of the input or to the first line that does not fit, and writes its answer: whether
/// its certificate is that of its items and its surplus, or why not. Returns `true` exactly for the answer `yes`, which
/// is given only at the end of the input.
///
/// The answer is one line: `yes`; `no` with the first fault of the certificate, as [`CertFault`] prints it; or `no
/// Syntax` with the number, from 1, of the first line that does not fit. A file is the line `surplus <S>`, at most 512
/// lines `item <weight> <cap>`, a line `level all` or `level <p>/<q>`, a line `saturated -` or `saturated <i>,<j>,..`,
/// and then only empty lines. Rates are in kbit/s, 0 to 2,488,320; a weight is 1 to 2,488,320; the saturated items are
/// given by their indexes, from 0, in ascending order.
///
/// At most 512 items and one line are kept, and of the line at most [`MAX_LINE_BYTES`](crate::MAX_LINE_BYTES) + 1
/// bytes: a longer line does not fit. The writer is flushed once, after the answer.
///
/// # Errors
///
/// `Read` if the reader fails or 2^64 - 1 reads reach no answer, and `Memory` if memory is refused: nothing is written.
/// `Write` if the writer fails: a prefix of the answer is written.
pub fn check_file<R: DevRead, W: DevWrite>(
    alloc: Global,
    reader: &mut R,
    writer: &mut W,
) -> Result<bool, DeviceFault>
    ensures text { Checked (R.remaining reader.old) (R.remaining reader.new) (W.contents writer.old)
        (W.contents writer.new) result }
    ensures end { ReadsToEnd (R.remaining reader.new) result }
    ensures read { TellsRead (R.calls reader.old) (R.calls reader.new) (R.failures reader.old)
        (R.failures reader.new) result }
    ensures write { TellsWrite (W.failures writer.old) (W.failures writer.new) result }
{
    let parsed = match read_file(alloc, reader) {
        Ok(parsed) => parsed,
        Err(fault) => return Err(fault),
    };
    let answer = match answer_of(alloc, parsed) {
        Ok(answer) => answer,
        Err(_) => return Err(DeviceFault::Memory),
    };
    match write_text(writer, answer.line.as_bytes()) {
        Ok(()) => Ok(answer.accepted),
        Err(fault) => Err(fault),
    }
}
