//! What standard error says beside a run of `csvq` or `load`: where the input is refused, what a heading may be, and how far
//! a load has come.

use cli_notes::{CountedSink, KeptSource, Refused, place_of, refused_in};
use store_sqlite::DatabaseFault;

// What the heading of the input of `csvq` may be.
const CSVQ_HEADING: &str =
    "a heading may have Name and custom names such as City__c, each once, and at most 40 custom ones";

// The same of `load`.
const LOAD_HEADING: &str =
    "a heading may have names of fields that can be written, and X__r.U__c where U__c is a unique field of what X__c refers to; \
each field once; a unique field of the object itself in the first place is the key by which records are found";

/// The commands of which something is said.
#[derive(Clone, Copy, Debug, PartialEq, Eq)]
pub(crate) enum Hinted {
    Csvq,
    Load,
    Other,
}

/// Which of them the words begin with.
pub(crate) fn hinted_by(command: &[String]) -> Hinted {
    match command.first() {
        Some(word) => match word.as_str() {
            "csvq" => Hinted::Csvq,
            "load" => Hinted::Load,
            _ => Hinted::Other,
        },
        None => Hinted::Other,
    }
}

// Says where a CSV text is refused.
fn say_place(rt: &HostRuntime, kept: Option<&[u8]>) {
    let Some(bytes) = kept else {
        return;
    };
    if let Some((line, column)) = place_of(rt.alloc(), bytes) {
        let _ = eprintln!(rt; "carmuguur: line {line}, column {column}");
    }
}

// Says what a heading may be.
fn say_heading(rt: &HostRuntime, hinted: Hinted) {
    let line = match hinted {
        Hinted::Csvq => CSVQ_HEADING,
        Hinted::Load => LOAD_HEADING,
        Hinted::Other => return,
    };
    let _ = eprintln!(rt; "carmuguur: {line}");
}

/// Says what is to be said after a run: of a refused input where or why, and of a load that is done how many rows it has.
pub(crate) fn say_after<S, W>(
    rt: &HostRuntime,
    hinted: Hinted,
    status: u8,
    source: &KeptSource<S>,
    sink: &CountedSink<HostRuntime, W>,
) {
    match status {
        0 => sink.say_total(),
        65 => match refused_in(sink.front()) {
            Some(Refused::Csv) => say_place(rt, source.kept()),
            Some(Refused::Heading) => say_heading(rt, hinted),
            None => {}
        },
        _ => {}
    }
}

/// Says why the file at a path couldn't be opened, if it couldn't.
pub(crate) fn say_fault(rt: &HostRuntime, path: &str, fault: Option<DatabaseFault>) {
    if let Some(fault) = fault {
        let _ = eprintln!(rt; "carmuguur: {path:?}: {fault}");
    }
}
