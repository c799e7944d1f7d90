//! Commands over a keeper, whatever its store.

use base_io::{MemoryClock, MemoryDoor, MemorySink, MemorySource};
use platform::run;
use std::alloc::{AllocError, Global};
use store_kv::Keeper;

// The words of a line, with `|` between them.
fn words_of(alloc: Global, line: &str) -> Result<Vec<String>, AllocError> {
    let mut words = Vec::new(alloc);
    for word in line.split('|') {
        words.push(String::from_str(alloc, word)?)?;
    }
    Ok(words)
}

// What a status is shown as.
fn shown(status: u8) -> &'static [u8] {
    match status {
        0 => b"done: ",
        65 => b"refused: ",
        _ => b"failed: ",
    }
}

// What a status is shown as, and what was written.
fn text_of(alloc: Global, status: u8, written: &[u8]) -> Result<Vec<u8>, AllocError> {
    let mut text = Vec::from_slice(alloc, shown(status))?;
    text.extend_from_slice(written)?;
    Ok(text)
}

// The status of words that are run over a keeper, this input and this output, without connections.
fn status_of<K: Keeper>(
    alloc: Global,
    keeper: &mut K,
    words: &[String],
    source: &mut MemorySource,
    sink: &mut MemorySink,
) -> Result<u8, AllocError> {
    let mut door = MemoryDoor::new(alloc, &[], 0, &[])?;
    let mut clock = MemoryClock::new(alloc, &[])?;
    Ok(run(alloc, words, keeper, &mut door, source, sink, &mut clock))
}

// How a run over a keeper ended, and what it wrote. `|` is between words.
fn ran<K: Keeper>(
    alloc: Global,
    keeper: &mut K,
    words: &str,
    input: &[u8],
) -> Result<Vec<u8>, AllocError> {
    let words = words_of(alloc, words)?;
    let mut source = MemorySource::new(alloc, input, &[])?;
    let mut sink = MemorySink::new(alloc, 1000, &[])?;
    let status = status_of(alloc, keeper, &words, &mut source, &mut sink)?;
    text_of(alloc, status, sink.written())
}

/// Adds two organisations, and gives how many were acknowledged.
pub(crate) fn add_two<K: Keeper>(alloc: Global, keeper: &mut K) -> Result<usize, AllocError> {
    let mut done = 0usize;
    for words in [
        "org-add|Acme|abcdefghijklmnop",
        "org-add|Bolt|abcdefghijklmnop",
    ] {
        let text = ran(alloc, keeper, words, b"")?;
        if text.as_slice().starts_with(b"done: ") {
            done = done.saturating_add(1);
        }
    }
    Ok(done)
}

// What the next organisation gives, of those that are there.
const NEXT: [&[u8]; 3] = [
    b"done: 00D000000000001EAA 005000000000000AAA\n",
    b"done: 00D000000000002EAA 005000000000000AAA\n",
    b"done: 00D000000000003EAA 005000000000000AAA\n",
];

/// How many organisations there are, by what the next one gives.
pub(crate) fn count_organisations<K: Keeper>(
    alloc: Global,
    keeper: &mut K,
) -> Result<Option<usize>, AllocError> {
    let text = ran(alloc, keeper, "org-add|Cora|abcdefghijklmnop", b"")?;
    for count in 0..NEXT.len() {
        if NEXT[count] == text.as_slice() {
            return Ok(Some(count));
        }
    }
    Ok(None)
}

/// Commands with their input, each over the tables that the one before it left, and how they end. The topic `words` of `replay` has the same
/// over a keeper in memory.
pub(crate) const COMMANDS: [(&str, &[u8], &[u8]); 4] = [
    (
        "org-add|Acme|abcdefghijklmnop",
        b"",
        b"done: 00D000000000001EAA 005000000000000AAA\n",
    ),
    (
        "answer",
        b"GET /services/data/v59.0/query?q=SELECT+Id,Name+FROM+Deal__c HTTP/1.1\r\nAuthorization: Bearer 00D000000000001EAA!005000000000000AAA!abcdefghijklmnop\r\n\r\n",
        b"done: HTTP/1.1 400 Bad Request\r\nContent-Type: application/json;charset=UTF-8\r\nContent-Length: 65\r\n\r\n[{\"message\":\"no object Deal__c here\",\"errorCode\":\"INVALID_TYPE\"}]",
    ),
    (
        "org-add|Bolt|short",
        b"",
        b"refused: refused: SECRET_REFUSED: 16 to 64 letters or digits\n",
    ),
    (
        "org-add|Bolt|abcdefghijklmnop",
        b"",
        b"done: 00D000000000002EAA 005000000000000AAA\n",
    ),
];

/// Whether the command of this number ends as it must.
pub(crate) fn ends_so<K: Keeper>(
    alloc: Global,
    keeper: &mut K,
    number: usize,
) -> Result<bool, AllocError> {
    match COMMANDS.get(number) {
        Some((words, input, ended)) => {
            let text = ran(alloc, keeper, words, input)?;
            Ok(text.as_slice() == *ended)
        }
        None => Ok(false),
    }
}
