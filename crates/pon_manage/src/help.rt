//! The text that lists all management lines, and the reply to the line that stops a run.

ghost use Rattle.std.specs.Prelude.{◌≡◌, ◌++◌, IfOk, OnOk, OnErr, string_bytes};
ghost use Rattle.pon_manage.specs.Help.{form_line, help_text, lines_under, run_help_text, stop_line};

use pon_line::{COMMANDS, Command};
use std::alloc::{AllocError, Global};

// Formats the line of a command: a port, and the words after it.
fn form_line(alloc: Global, command: Command) -> Result<String, AllocError>
    ensures { IfOk result (λ line. string_bytes line ≡ form_line command) }
{
    let line = command.form().line;
    format!(in alloc; "<port> {line}\n")
}

// Formats a line with a number of commands, and the lines of those of each port.
fn lines_under(alloc: Global, count: usize) -> Result<String, AllocError>
    ensures { IfOk result (λ text. string_bytes text ≡ lines_under count) }
{
    let mut text = format!(in alloc; "help {count}\n")?;
    for command in COMMANDS {
        let line = form_line(alloc, command)?;
        text.push_str(&line)?;
    }
    Ok(text)
}

// Formats the lines that a run answers.
fn run_help_text(alloc: Global) -> Result<String, AllocError>
    ensures { IfOk result (λ text. string_bytes text ≡ run_help_text) }
{
    let mut text = lines_under(alloc, COMMANDS.len() + 1)?;
    let line = form_line(alloc, Command::Stop)?;
    text.push_str(&line)?;
    Ok(text)
}

/// Appends the list of the lines of each port: their number, and the form of each. `Err` only if memory is refused, and then
/// the replies are unchanged.
pub(crate) fn append_help(replies: &mut Vec<u8>) -> Result<(), AllocError>
    ensures ok { OnOk result (replies.new.items ≡ replies.old.items ++ help_text) }
    ensures err { OnErr result (replies.new.items ≡ replies.old.items) }
{
    let text = lines_under(*replies.allocator(), COMMANDS.len())?;
    replies.extend_from_slice(text.as_bytes())
}

/// Appends the list of the lines that a run answers, as [`append_help`] does.
pub(crate) fn append_run_help(replies: &mut Vec<u8>) -> Result<(), AllocError>
    ensures ok { OnOk result (replies.new.items ≡ replies.old.items ++ run_help_text) }
    ensures err { OnErr result (replies.new.items ≡ replies.old.items) }
{
    let text = run_help_text(*replies.allocator())?;
    replies.extend_from_slice(text.as_bytes())
}

/// Appends the reply to the line that stops a run. `Err` only if memory is refused, and then the replies are unchanged.
pub(crate) fn append_stop(replies: &mut Vec<u8>) -> Result<(), AllocError>
    ensures ok { OnOk result (replies.new.items ≡ replies.old.items ++ stop_line) }
    ensures err { OnErr result (replies.new.items ≡ replies.old.items) }
{
    replies.extend_from_slice(b"ok stop\n")
}
