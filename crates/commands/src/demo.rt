//! The command `demo`.

ghost use Rattle.std.specs.Prelude.{◌≡◌, ◌≤◌, IfOk, IsErrOf, IsTrue, List, codes, false, pos, true, ℕ};
ghost use Rattle.std.specs.String.{string_bytes};
ghost use Rattle.commands.specs.Commands.{demo, has_status, may_write, most_records, printed, prints};
ghost use Rattle.commands.specs.Deeds.{Prints};
ghost use Rattle.commands.specs.Demo.{above_line, demo_printout, demo_printed, demo_text, number_or_none, records_lines, steps_lines};
ghost use Rattle.commands.specs.Statuses.{status_in};
ghost use Rattle.commands.specs.Stops.{IsKnownStatus};
ghost use Rattle.commands.specs.declared.stop.Stop.TheVariants as stop;
ghost use Rattle.cmd_load.specs.Batches.{first_moment};
ghost use Rattle.model.specs.World.{World};
ghost use Rattle.base_value.specs.Causes.{Cause};
ghost use Rattle.base_value.specs.Dates.{is_moment};

use crate::printing::write_printout;
use crate::printout::{Printout, printout_of_refusal};
use crate::stop::Stop;
use base_io::Sink;
use cmd_demo::{Demo, make_demo};
use model::Refusal;
use std::alloc::{AllocError, Global};

fn number_or_none(alloc: Global, number: Option<u64>) -> Result<String, AllocError>
    ensures { IfOk result (λ text. string_bytes text ≡ number_or_none number) }
{
    match number {
        Some(number) => format!(in alloc; "{number}"),
        None => format!(in alloc; "none"),
    }
}

fn records_lines(alloc: Global, count: u64) -> Result<String, AllocError>
    ensures { IfOk result (λ text. string_bytes text ≡ records_lines count) }
{
    format!(in alloc; "records {count}\nfirst as text ")
}

fn steps_lines(alloc: Global, switched: Option<u64>, done: u64) -> Result<String, AllocError>
    ensures { IfOk result (λ text. string_bytes text ≡ steps_lines switched done) }
{
    let switched = number_or_none(alloc, switched)?;
    format!(in alloc; "switched at step {switched}\ndone at step {done}\nleast ")
}

fn above_line(alloc: Global, above: usize) -> Result<String, AllocError>
    ensures { IfOk result (λ text. string_bytes text ≡ above_line above) }
{
    format!(in alloc; "above 500: {above}\n")
}

// What is seen of a demo of so many records.
fn demo_text(alloc: Global, count: u64, demo: &Demo) -> Result<Vec<u8>, AllocError>
    ensures { IfOk result (λ text. text.items ≡ demo_text count demo.now) }
{
    let mut text = records_lines(alloc, count)?.into_bytes();
    text.extend_from_slice(demo.first.as_slice())?;
    let steps = steps_lines(alloc, demo.switched, demo.repeats)?;
    text.extend_from_slice(steps.as_bytes())?;
    text.extend_from_slice(demo.least.as_slice())?;
    let above = above_line(alloc, demo.above)?;
    text.extend_from_slice(above.as_bytes())?;
    Ok(text)
}

// The printout of a demo, or of a refusal.
fn demo_printout(
    alloc: Global,
    count: u64,
    found: Result<Demo, Refusal>,
) -> Result<Printout, AllocError>
    ensures { IfOk result (λ p. p ≡ demo_printout count found) }
{
    match found {
        Ok(demo) => Ok(Printout::done(demo_text(alloc, count, &demo)?)),
        Err(refusal) => printout_of_refusal(alloc, &refusal),
    }
}

// The printout of a demo of so many records at this moment.
fn printout_of_demo(alloc: Global, count: u64, now: u64) -> Result<Printout, AllocError>
    requires moment { IsTrue (is_moment (pos now)) }
    requires count { count ≤ most_records }
    ensures { IfOk result (λ p. p ≡ demo_printed count now) }
{
    let found = make_demo(alloc, count, now)?;
    demo_printout(alloc, count, found)
}

/// Watches the change of a field's type over so many records, in tables of its own, and prints what is seen.
pub fn print_demo<W: Sink>(alloc: Global, count: u64, now: u64, sink: &mut W) -> Result<u8, Stop>
    requires moment { IsTrue (is_moment (pos now)) }
    requires count { count ≤ most_records }
    ensures prints { (w : World) (bytes moments : List ℕ) → now ≡ first_moment moments
        → Prints w (printed (demo count) w bytes moments) (W.written sink.old) (W.written sink.new) result w }
    ensures known { IsKnownStatus result }
    ensures status { has_status (prints (demo count)) (status_in result) ≡ true }
    ensures unwritten { may_write (prints (demo count)) (status_in result) ≡ false → sink.new ≡ sink.old }
    ensures cause { Cause (W.faults sink.old) (W.faults sink.new) (IsErrOf result stop.SinkFailed) }
    ensures stays { W.stays sink.old sink.new }
{
    match printout_of_demo(alloc, count, now) {
        Ok(printout) => match write_printout(sink, &printout) {
            Ok(status) => Ok(status),
            Err(_) => Err(Stop::SinkFailed),
        },
        Err(_) => Err(Stop::NoMemory),
    }
}
