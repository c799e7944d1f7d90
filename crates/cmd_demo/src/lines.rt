//! What is read off the lines of a query.

ghost use Rattle.std.specs.Prelude.{◌≡◌, IfOk};
ghost use Rattle.cmd_demo.specs.Demos.{amount_line, behind_names, rows_in};

use base_value::Bytes;
use std::alloc::{AllocError, Global};

// How long the line of the names is, with its end.
const NAMES: usize = 10;

fn behind_names(lines: &[u8]) -> &[u8]
    ensures same { result.now ≡ behind_names lines.now }
{
    lines.get(NAMES..).unwrap_or(&[])
}

/// The line behind that of the names, or `none`, with its end.
///
/// # Errors
///
/// When out of memory.
pub(crate) fn amount_line(alloc: Global, lines: &[u8]) -> Result<Bytes, AllocError>
    ensures { IfOk result (λ line. line ≡ amount_line lines.now) }
{
    let line = behind_names(lines);
    if line.is_empty() {
        Bytes::from_slice(alloc, b"none\n")
    } else {
        Bytes::from_slice(alloc, line)
    }
}

/// How many lines are behind that of the names.
pub(crate) fn rows_in(lines: &[u8]) -> usize
    ensures { result ≡ rows_in lines.now }
{
    behind_names(lines).iter().filter(|c| **c == b'\n').count()
}
