//! HTTP: the items that are read from bytes, however these are cut, and the bytes of replies.

ghost use Rattle.std.specs.Prelude.{None};

use crate::answer::Answer;
use crate::cells::cell;
use base_io::{IoFail, Source};
use http::{Method, StatusCode};
use server_http::{
    Buffer, HttpFail, HttpMessage, Next, next_message, out_of_memory, reply_bytes, reply_bytes_to,
    unavailable_to,
};
use std::alloc::{AllocError, Global};

// How bytes are cut into reads.
#[derive(Clone, Copy)]
struct Cut {
    // How many bytes are before the first cut, or 0.
    first: usize,
    // The most bytes that a read gives.
    piece: usize,
    // The number of the read that fails, or 0.
    failing: usize,
}

// A source in memory that tells nothing of its bytes, and gives them as they are cut.
#[derive(Drop)]
struct Pieces<'a> {
    left: &'a [u8],
    cut: Cut,
    faults: u64,
}

impl Source for Pieces<'_> {
    ghost left = { λ _. None };

    ghost faults = { λ s. s.faults };

    ghost stays = { λ _ _. Unit {0} };

    ghost stays_refl = { λ _. tt };

    ghost stays_trans = { λ _ _ _ _ _. tt };

    fn read(&mut self, into: &mut [u8]) -> Result<usize, IoFail> {
        if self.cut.failing > 0 {
            self.cut.failing -= 1;
            if self.cut.failing == 0 {
                self.faults = self.faults.saturating_add(1);
                return Err(IoFail);
            }
        }
        let reach = if self.cut.first > 0 {
            self.cut.first
        } else {
            usize::MAX
        };
        let count = self
            .left
            .len()
            .min(reach)
            .min(self.cut.piece)
            .min(into.len());
        let (now, later) = self.left.split_at(count);
        into[..count].copy_from_slice(now);
        self.left = later;
        self.cut.first = self.cut.first.saturating_sub(count);
        Ok(count)
    }
}

// Appends a message: its method and target, `~` and the bearer, `=` and the body, `!` if it closes the connection.
fn push_message(items: &mut Answer, message: &HttpMessage) {
    items.push(message.method.as_str());
    items.push(" ");
    items.push_cell(message.target.as_str().as_bytes());
    if let Some(bearer) = &message.bearer {
        items.push(" ~");
        items.push_cell(bearer.as_str().as_bytes());
    }
    push_body(items, message.body.as_slice());
    items.push(if message.close { " !; " } else { "; " });
}

// Appends a body, or the count of its bytes if they are many.
fn push_body(items: &mut Answer, body: &[u8]) {
    if body.len() > 100 {
        items.push(" =");
        items.push_value(&body.len());
        items.push(" bytes");
    } else if !body.is_empty() {
        items.push(" =");
        items.push_cell(body);
    }
}

// Appends an item that was read, counts a failure, and returns whether another item is to come.
fn push_item(items: &mut Answer, item: Result<Next, HttpFail>, failures: &mut u64) -> bool {
    match item {
        Ok(Next::Message(message)) => {
            push_message(items, &message);
            return true;
        }
        Err(HttpFail::Failed) => {
            *failures = failures.saturating_add(1);
            return true;
        }
        Ok(Next::End) => items.push("End"),
        Ok(Next::Cut) => items.push("Cut"),
        Err(fail) => items.push_value(&fail),
    }
    false
}

// Appends the items of a source, at which a failed read loses nothing.
fn push_items(items: &mut Answer, source: &mut Pieces<'_>, buffer: &mut Buffer) {
    let mut failures = 0;
    for _ in 0..100 {
        let item = next_message(items.alloc(), source, buffer);
        if !push_item(items, item, &mut failures) {
            break;
        }
    }
    if failures != source.faults {
        items.push(", and failures are miscounted");
    }
}

// The items of bytes that are cut so.
fn items_of(alloc: Global, bytes: &[u8], cut: Cut) -> Answer {
    let mut items = Answer::new(alloc);
    let mut source = Pieces {
        left: bytes,
        cut,
        faults: 0,
    };
    match Buffer::new(alloc) {
        Ok(mut buffer) => push_items(&mut items, &mut source, &mut buffer),
        Err(AllocError) => items.fail(),
    }
    items
}

fn cut_at(first: usize) -> Cut {
    Cut {
        first,
        piece: usize::MAX,
        failing: 0,
    }
}

// Appends the items of bytes that are cut so, if they aren't those of the whole bytes.
fn compare(answer: &mut Answer, bytes: &[u8], whole: &str, cut: Cut) {
    let items = items_of(answer.alloc(), bytes, cut);
    if items.as_str() != whole {
        answer.push(", but ");
        answer.push_other(&items, "");
        answer.push(" if cut at ");
        answer.push_value(&cut.first);
    }
}

// Whether so many bytes are cut in two at a place: at each one, or at some if they are too many for that.
fn is_cut_at(count: usize, place: usize) -> bool {
    count < 1000 || matches!(place, 1 | 30 | 4095..=4097 | 16383..=16385)
}

// Bytes that are cut into small pieces, and in two.
fn compare_cuts(answer: &mut Answer, bytes: &[u8], whole: &str) {
    let small = Cut {
        first: 0,
        piece: if bytes.len() > 17_000 { 1000 } else { 1 },
        failing: 0,
    };
    compare(answer, bytes, whole, small);
    for place in 1..bytes.len() {
        if is_cut_at(bytes.len(), place) {
            compare(answer, bytes, whole, cut_at(place));
        }
    }
}

// Bytes of which each read in turn fails.
fn compare_failures(answer: &mut Answer, bytes: &[u8], whole: &str) {
    for failing in 1..30 {
        let cut = Cut {
            first: 0,
            piece: 7,
            failing,
        };
        compare(answer, bytes, whole, cut);
    }
}

/// Bytes: their items, which are the same however the bytes are cut.
pub fn messages(answer: &mut Answer, cells: &[&str]) {
    let bytes = answer.repeated_in(cells);
    let whole = items_of(answer.alloc(), bytes.as_slice(), cut_at(0));
    answer.push_other(&whole, "");
    compare_cuts(answer, bytes.as_slice(), whole.as_str());
    if bytes.len() < 200 {
        compare_failures(answer, bytes.as_slice(), whole.as_str());
    }
}

fn method_in(alloc: Global, name: &str) -> Method {
    match Method::from_bytes(alloc, name.as_bytes()) {
        Ok(method) => method,
        Err(_) => Method::GET,
    }
}

fn push_reply_to(answer: &mut Answer, status: &str, method: &Method, body: &[u8], close: bool) {
    let alloc = answer.alloc();
    match status {
        "204" => answer.push_bytes(reply_bytes(alloc, StatusCode::NO_CONTENT, b"", close)),
        "401" => answer.push_bytes(reply_bytes(alloc, StatusCode::UNAUTHORIZED, body, close)),
        "404" => {
            let reply = reply_bytes_to(alloc, method, StatusCode::NOT_FOUND, body, close);
            answer.push_bytes(reply);
        }
        "503" => answer.push_cell(unavailable_to(method, close)),
        _ => answer.push_cell(out_of_memory(close)),
    }
}

/// A status, a method (GET if there is none), a body, and `close` or nothing: the reply.
pub fn reply(answer: &mut Answer, cells: &[&str]) {
    let method = method_in(answer.alloc(), cell(cells, 1));
    let body = answer.bytes_in(cell(cells, 2));
    let close = cell(cells, 3) == "close";
    push_reply_to(answer, cell(cells, 0), &method, body.as_slice(), close);
}
