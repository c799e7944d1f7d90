//! The program: it hands the words after its name, the standard streams and the system's clock to `platform::run`.
#![tactic(auto)]

ghost use Rattle.carmuguur.specs.Status.{IsStatusOf};
ghost use Rattle.std.specs.Prelude.{◌≡◌, ◌⊎◌, ◌↔◌, IfErr, IfSome, IsNone, None, Ok, map, string_bytes, true};
ghost use Rattle.commands.specs.Commands.{command_of, opens_in};
ghost use Rattle.cli_args.specs.Lines.{IsCommandLine};
ghost use Rattle.cli_args.specs.Secrets.{IsPlainLine};

mod about;
mod hints;
mod in_file;
mod secrets;

use crate::about::asked_text;
use crate::hints::{Hinted, hinted_by, say_after, say_fault};
use crate::in_file::{Ended, run_in_file};
use crate::secrets::{named_secret, refuse_secret};
use base_io::{Clock, Door, Sink, Source, StdSink, StdSource, StoppableDoor, SystemClock, TcpDoor};
use cli_args::{CommandLine, Mistake, put_secret, read_line, secret_in};
use cli_notes::{CountedSink, KeptSource};
use commands::uses_keeper;
use platform::{run, run_laws};
use std::alloc::Global;
use std::env;
use std::io::ErrorKind;
use std::process::ExitCode;
use store_file::Unknown;
use store_kv::MemoryKeeper;

// The statuses that may come before a command runs, as `run` has them.
const NO_COMMAND: u8 = 64;

const OUT_OF_MEMORY: u8 = 71;

const NO_OUTPUT: u8 = 73;

// The variable of the environment that is 1 where each reply of `serve` is to be said.
const LOG: &str = "CARMUGUUR_LOG";

// The variable that is 1 where `load` isn't to say how far it has come.
const QUIET: &str = "CARMUGUUR_QUIET";

// Why there are no words to run.
enum NoWords {
    // A word isn't UTF-8.
    NotText,
    // Out of memory.
    Memory,
}

// The words after the program's name.
fn all_words(rt: &HostRuntime) -> Result<Vec<String>, NoWords> {
    match env::args(rt) {
        Ok(args) => match args.skip(1).collect(rt.alloc()) {
            Ok(words) => Ok(words),
            Err(_) => Err(NoWords::Memory),
        },
        Err(error) => {
            if error.kind() == ErrorKind::InvalidData {
                Err(NoWords::NotText)
            } else {
                Err(NoWords::Memory)
            }
        }
    }
}

// Whether a variable of the environment is 1.
fn is_set(rt: &HostRuntime, name: &str) -> bool {
    match env::var(rt, name) {
        Ok(value) => value.as_str() == "1",
        Err(_) => false,
    }
}

// The door at this port, which SIGINT and SIGTERM end.
fn door_at(rt: HostRuntime, port: u16) -> StoppableDoor<HostRuntime> {
    let door = TcpDoor::new(rt, port);
    if is_set(&rt, LOG) {
        StoppableDoor::new(door.saying_all())
    } else {
        StoppableDoor::new(door)
    }
}

// Whether what a command reads is kept, so that the place of a refusal can be said.
fn keeps_input(hinted: Hinted) -> bool {
    hinted != Hinted::Other
}

// Whether it is said how many rows a command has written.
fn says_rows(rt: &HostRuntime, hinted: Hinted) -> bool {
    hinted == Hinted::Load && !is_set(rt, QUIET)
}

// Runs the command over tables in memory, which are empty.
fn run_in_memory<D: Door, S: Source, W: Sink, C: Clock>(
    alloc: Global,
    command: &[String],
    door: &mut D,
    source: &mut S,
    sink: &mut W,
    clock: &mut C,
) -> u8
    ensures { IsStatusOf (command_of (map string_bytes command.now)) result }
{
    // For the proof alone.
    run_laws();
    match MemoryKeeper::new(alloc, &[]) {
        Ok(mut keeper) => run(alloc, command, &mut keeper, door, source, sink, clock),
        Err(_) => OUT_OF_MEMORY,
    }
}

// Runs the command over the tables in the file at the path or, where there is none, over tables in memory.
fn run_over<D: Door, S: Source, W: Sink, C: Clock>(
    rt: HostRuntime,
    path: Option<&str>,
    command: &[String],
    door: &mut D,
    source: &mut S,
    sink: &mut W,
    clock: &mut C,
) -> Ended
    requires { IfSome path (λ _. opens_in (command_of (map string_bytes command.now)) ≡ true) }
    ensures { IsStatusOf (command_of (map string_bytes command.now)) result.status }
{
    // For the proof alone.
    run_laws();
    match path {
        Some(path) => run_in_file(rt, path, Unknown, command, door, source, sink, clock),
        None => Ended {
            status: run_in_memory(rt.alloc(), command, door, source, sink, clock),
            fault: None,
            is_closed: false,
        },
    }
}

// The path of the file whose tables a command line uses: `-` is for tables in memory, and a command that uses none opens no file.
fn path_of<'a>(line: &CommandLine<'a>) -> Option<&'a str>
    ensures { IfSome result (λ _. opens_in (command_of (map string_bytes line.now.command.now)) ≡ true) }
{
    if line.path != "-" && uses_keeper(line.command) {
        Some(line.path)
    } else {
        None
    }
}

// Runs a command line over the standard streams, and says what is to be said of it in lines of its own. It alone names the types of the
// streams, which are dear to prove.
fn run_line(rt: HostRuntime, line: &CommandLine<'_>) -> u8
    ensures { IsStatusOf (command_of (map string_bytes line.now.command.now)) result }
{
    let mut door = door_at(rt, line.port);
    let hinted = hinted_by(line.command);
    let mut source = KeptSource::new(rt.alloc(), StdSource::new(rt.stdin()), keeps_input(hinted));
    let mut sink = CountedSink::new(rt, StdSink::new(rt.stdout()), says_rows(&rt, hinted));
    let mut clock = SystemClock::new(rt);
    let ended = run_over(
        rt,
        path_of(line),
        line.command,
        &mut door,
        &mut source,
        &mut sink,
        &mut clock,
    );
    say_after(&rt, hinted, ended.status, &source, &sink);
    say_fault(&rt, line.path, ended.fault);
    ended.status
}

// What standard error says of a status of `run`: nothing if standard output has the answer or the refusal.
fn explanation(status: u8) -> Option<&'static str>
    ensures { IsNone result ↔ ((status ≡ 0) ⊎ (status ≡ 65)) }
{
    match status {
        0 | 65 => None,
        NO_COMMAND => Some("no command"),
        OUT_OF_MEMORY => Some("out of memory"),
        72 => Some("the store failed"),
        NO_OUTPUT => Some("standard output failed"),
        74 => Some("standard input failed"),
        75 => Some("the port failed"),
        76 => Some("the store is damaged"),
        77 => Some("the store has an unknown version"),
        _ => Some("failed"),
    }
}

// Refuses the words, and says why.
fn refuse(rt: &HostRuntime, mistake: &Mistake<'_>) -> u8
    ensures { result ≡ 64 }
{
    let _ = eprintln!(rt; "carmuguur: {mistake}");
    NO_COMMAND
}

// Does what the words say, or says why it can't. The status is 64 exactly if they are no command line.
fn run_words(rt: HostRuntime, words: &[String]) -> u8
    ensures { (result ≡ 64) ↔ (IsCommandLine (map string_bytes words.now) → ⊥) }
{
    let line = match read_line(words) {
        Ok(line) => line,
        Err(mistake) => return refuse(&rt, &mistake),
    };
    let status = run_line(rt, &line);
    if let Some(line) = explanation(status) {
        let _ = eprintln!(rt; "carmuguur: {line}");
    }
    status
}

// The secret that the words name, if they are a command line whose word of it names a variable or a file. Else the status without it: a
// line has been said then.
fn find_secret(rt: &HostRuntime, words: &[String]) -> Result<Option<String>, u8>
    ensures wrong { (IsCommandLine (map string_bytes words.now) → ⊥) → result ≡ Ok None }
    ensures plain { IsCommandLine (map string_bytes words.now) → IsPlainLine (map string_bytes words.now) → result ≡ Ok None }
    ensures status { IfErr result (λ status. (status ≡ 64) ⊎ (status ≡ 71)) }
{
    if read_line(words).is_err() {
        return Ok(None);
    }
    let Some(word) = secret_in(words) else {
        return Ok(None);
    };
    match named_secret(rt, word) {
        Ok(found) => Ok(found),
        Err(why) => Err(refuse_secret(rt, word, why)),
    }
}

// Puts a secret that was found in the place of the word that names it.
fn put_found(words: &mut [String], found: Option<String>)
    ensures { IsCommandLine (map string_bytes words.new) ↔ IsCommandLine (map string_bytes words.old) }
{
    if let Some(secret) = found {
        put_secret(words, secret);
    }
}

// Does what the words say with the secret that they name, or says why it can't. The status is 64 if they are no command line, and else only if
// they name a secret that isn't there.
fn do_words(rt: HostRuntime, words: &mut [String]) -> u8
    ensures wrong { (IsCommandLine (map string_bytes words.old) → ⊥) → result ≡ 64 }
    ensures plain { IsPlainLine (map string_bytes words.old)
        → (result ≡ 64) ↔ (IsCommandLine (map string_bytes words.old) → ⊥) }
{
    match find_secret(&rt, words) {
        Ok(found) => {
            put_found(words, found);
            run_words(rt, words)
        }
        Err(status) => status,
    }
}

// Writes a text to standard output.
fn say(rt: &HostRuntime, text: &str) -> u8 {
    match println!(rt; "{text}") {
        Ok(()) => 0,
        Err(_) => NO_OUTPUT,
    }
}

fn main(rt: HostRuntime) -> ExitCode {
    let status = match all_words(&rt) {
        Ok(mut words) => match asked_text(&words) {
            Some(text) => say(&rt, text),
            None => do_words(rt, &mut words),
        },
        Err(NoWords::NotText) => refuse(&rt, &Mistake::NotText),
        Err(NoWords::Memory) => {
            let _ = eprintln!(rt; "carmuguur: out of memory");
            OUT_OF_MEMORY
        }
    };
    ExitCode::from(status)
}
