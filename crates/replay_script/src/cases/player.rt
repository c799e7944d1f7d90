//! The lines of a case file in turn, over the keeper of a store.

use crate::cases::comparing::{push_first_difference, push_other_report};
use crate::cases::messages::push_request;
use crate::cases::quoted::{hex_bytes, line_bytes, number, numbers, raw_bytes, words};
use crate::cases::stop::{NO_REPLY, Stop, UNKNOWN};
use crate::cases::trial::{Asked, Trial};
use crate::cases::wanted::want;
use crate::given::{Given, LAST_MOMENT, MOST_ROOM, push_word};
use crate::output::Output;
use crate::replaying::{End, Replay};
use crate::rows::batch_of;
use std::alloc::{AllocError, Global};
use store_kv::Batch;

// A line may be there so often at most.
const MOST_TIMES: u64 = 100_000;

const ROW: &str =
    "row TABLE KEY ROW, the key and the row in hexadecimal digits, or - for no byte; gone for no row";

const ROOM: &str = "room BYTES, from 0 to 1048576";

const TIMES: &str = "times NUMBER, from 1 to 100000";

const FAILS: &str = "keeper fails at call NUMBERS, and so source, sink and door";

const CALLER: &str = "as ORG!USER!SECRET, or: as nobody";

const STORE: &str = "new store";

/// The store, who asks, and what holds for the next run.
#[derive(Drop)]
pub(crate) struct Player {
    alloc: Global,
    replay: Replay,
    // Who asks, or an empty text if nobody does.
    caller: String,
    given: Given,
    // The line of JSON that is to run.
    json: String,
    trial: Trial,
    // How often the next request or line of input comes.
    times: u64,
    cases: u64,
    line: u64,
    message: Output,
}

// The batch of a row, or that there is none.
fn row_of(alloc: Global, text: &str) -> Result<Batch, Stop> {
    let Some((table, rest)) = text.split_once(' ') else {
        return Err(Stop::Form(ROW));
    };
    let Some((key, row)) = rest.split_once(' ') else {
        return Err(Stop::Form(ROW));
    };
    let Ok(table) = table.parse::<u8>() else {
        return Err(Stop::Form(ROW));
    };
    let key = hex_bytes(alloc, key, ROW)?;
    let row = if row == "gone" {
        None
    } else {
        Some(hex_bytes(alloc, row, ROW)?)
    };
    Ok(batch_of(alloc, table, key, row)?)
}

// A request's method and path, and its body, which is all behind the blank that ends the path; `empty` is one without a byte.
fn request_of<'a>(line: &'a str, rest: &'a str) -> (&'a str, Option<&'a str>) {
    match rest.split_once(' ') {
        None => (line, None),
        Some((_, body)) => {
            let target = line.strip_suffix(body).unwrap_or(line).trim_end();
            (target, Some(if body == "empty" { "" } else { body }))
        }
    }
}

impl Player {
    /// A store without a row, of which nobody asks.
    ///
    /// # Errors
    ///
    /// If out of memory.
    pub(crate) fn new(alloc: Global) -> Result<Player, AllocError> {
        let replay = Replay::new(alloc)?;
        Ok(Player {
            alloc,
            replay,
            caller: String::new(alloc),
            given: Given::new(alloc),
            json: String::new(alloc),
            trial: Trial::new(alloc),
            times: 1,
            cases: 0,
            line: 1,
            message: Output::new(alloc),
        })
    }

    /// How many requests and commands came as they were wanted.
    pub(crate) fn cases(&self) -> u64 {
        self.cases
    }

    /// The line that is done, or at which the lines ended early, by its number.
    pub(crate) fn stopped_at(&self) -> u64 {
        self.line
    }

    /// What is said of the difference or of the line of JSON at which the lines ended early.
    pub(crate) fn message(&self) -> &Output {
        &self.message
    }

    // Ends at this line if it has a difference, which the message says.
    fn check_difference(&mut self, line: Option<u64>) -> Result<(), Stop> {
        match line {
            Some(line) => {
                self.line = line;
                Err(Stop::Differs)
            }
            None => Ok(()),
        }
    }

    // Runs the words, and compares what comes.
    fn run(&mut self) -> Result<(), Stop> {
        let counts = self.replay.run(self.alloc, &self.given)?;
        self.given.fail_no_more();
        let line = push_first_difference(
            &mut self.message,
            &self.trial,
            counts,
            self.replay.written(),
        );
        self.check_difference(line)
    }

    // Why the line of JSON that runs is the last.
    fn end_of_json(&mut self, end: &End) -> Stop {
        self.line = self.trial.line;
        match end {
            End::Fault(fault) => {
                self.message.push(fault.as_str());
                Stop::Json
            }
            End::Keeper => Stop::Keeper,
            End::Memory => Stop::Memory,
        }
    }

    // Does what the line of JSON says, and compares its report.
    fn run_json(&mut self) -> Result<(), Stop> {
        match self.replay.line(self.alloc, self.json.as_str()) {
            Ok(report) => {
                let line = push_other_report(&mut self.message, &self.trial, report.as_str());
                self.check_difference(line)
            }
            Err(end) => Err(self.end_of_json(&end)),
        }
    }

    // Runs what has been asked, if anything has, and compares what comes.
    fn finish(&mut self) -> Result<(), Stop> {
        if self.trial.is_waiting() {
            self.line = self.trial.line;
            return Err(Stop::Fault(NO_REPLY));
        }
        self.cases = self.cases.saturating_add(self.trial.count());
        match self.trial.end() {
            Asked::Nothing => Ok(()),
            Asked::Json => self.run_json(),
            Asked::Connection | Asked::Command => self.run(),
        }
    }

    // From here on something runs, of which nothing is wanted so far.
    fn begin(&mut self, asked: Asked, count: u64) {
        self.given.stdin.clear();
        self.trial.begin(self.line, asked, count);
    }

    // Begins a connection, unless one goes on.
    fn connect(&mut self) -> Result<(), Stop> {
        if self.trial.is_connection() {
            return Ok(());
        }
        self.finish()?;
        self.given.words.clear();
        push_word(self.alloc, &mut self.given.words, "answer")?;
        self.begin(Asked::Connection, 0);
        Ok(())
    }

    // How often the next one comes.
    fn next_times(&mut self) -> u64 {
        let times = self.times;
        self.times = 1;
        times
    }

    // Adds bytes to the input so often.
    fn add_input(&mut self, bytes: &[u8], times: u64) -> Result<(), AllocError> {
        for _ in 0..times {
            self.given.stdin.extend_from_slice(bytes)?;
        }
        Ok(())
    }

    // Sends a message on the connection, which begins with it if there is none.
    fn send(&mut self, bytes: &[u8]) -> Result<(), Stop> {
        let times = self.next_times();
        self.connect()?;
        if self.trial.is_waiting() {
            return Err(Stop::Fault(NO_REPLY));
        }
        self.add_input(bytes, times)?;
        self.trial.ask(times);
        Ok(())
    }

    // Sends a request.
    fn request(&mut self, line: &str, rest: &str) -> Result<(), Stop> {
        let (target, body) = request_of(line, rest);
        let mut message = Output::new(self.alloc);
        push_request(&mut message, target, self.caller.as_str(), body);
        let message = message.finish()?;
        self.send(message.as_bytes())
    }

    // Sends a message, byte by byte.
    fn send_bytes(&mut self, text: &str) -> Result<(), Stop> {
        let bytes = raw_bytes(self.alloc, text)?;
        self.send(bytes.as_slice())
    }

    // Adds bytes to the input of what runs.
    fn give(&mut self, bytes: &[u8]) -> Result<(), Stop> {
        let times = self.next_times();
        self.trial.check_runs()?;
        Ok(self.add_input(bytes, times)?)
    }

    // More of the input, byte by byte.
    fn input(&mut self, text: &str) -> Result<(), Stop> {
        let bytes = raw_bytes(self.alloc, text)?;
        self.give(bytes.as_slice())
    }

    // A line of the input.
    fn input_line(&mut self, text: &str) -> Result<(), Stop> {
        let bytes = line_bytes(self.alloc, text)?;
        self.give(bytes.as_slice())
    }

    // Who asks from here on.
    fn set_caller(&mut self, name: &str) -> Result<(), Stop> {
        if name.is_empty() {
            return Err(Stop::Form(CALLER));
        }
        self.caller.clear();
        if name != "nobody" {
            self.caller.push_str(name)?;
        }
        Ok(())
    }

    // How often the next one comes.
    fn set_times(&mut self, digits: &str) -> Result<(), Stop> {
        self.times = number(digits, 1, MOST_TIMES, TIMES)?;
        Ok(())
    }

    // The moments of the clock in each run from here on.
    fn set_moments(&mut self, list: &str) -> Result<(), Stop> {
        let moments = numbers(self.alloc, list, 0, LAST_MOMENT)?;
        self.finish()?;
        self.given.moments = moments;
        Ok(())
    }

    // So many bytes may be written to standard output in the next run.
    fn set_room(&mut self, digits: &str) -> Result<(), Stop> {
        let room = number(digits, 0, MOST_ROOM, ROOM)?;
        self.finish()?;
        self.given.room = room as usize;
        Ok(())
    }

    // Begins another store.
    fn set_store(&mut self, what: &str) -> Result<(), Stop> {
        if what != "store" {
            return Err(Stop::Form(STORE));
        }
        self.finish()?;
        Ok(self.replay.begin(self.alloc, &[])?)
    }

    // These calls of an object fail: of the keeper from here on, of another one in the next run.
    fn set_failing(&mut self, object: &str, rest: &str) -> Result<(), Stop> {
        let Some(list) = rest.strip_prefix("fails at call ") else {
            return Err(Stop::Form(FAILS));
        };
        let calls = numbers(self.alloc, list, 1, u64::MAX)?;
        self.finish()?;
        match object {
            "source" => self.given.source_fails = calls,
            "sink" => self.given.sink_fails = calls,
            "door" => self.given.door_fails = calls,
            _ => self.replay.fail_at(self.alloc, calls.as_slice())?,
        }
        Ok(())
    }

    // Puts a row into the keeper, or removes it.
    fn put(&mut self, text: &str) -> Result<(), Stop> {
        let row = row_of(self.alloc, text)?;
        self.finish()?;
        Ok(self.replay.put(self.alloc, &[row])?)
    }

    // A command is to run.
    fn command(&mut self, text: &str) -> Result<(), Stop> {
        let words = words(self.alloc, text)?;
        self.finish()?;
        self.given.words = words;
        self.begin(Asked::Command, 1);
        Ok(())
    }

    // A line of JSON is to run.
    fn set_json(&mut self, text: &str) -> Result<(), Stop> {
        self.finish()?;
        self.json.clear();
        self.json.push_str(text)?;
        self.begin(Asked::Json, 1);
        Ok(())
    }

    // Does what a line says that ends a connection, by its first word.
    fn set(&mut self, word: &str, rest: &str) -> Result<(), Stop> {
        match word {
            "at" => self.set_moments(rest),
            "new" => self.set_store(rest),
            "keeper" | "source" | "sink" | "door" => self.set_failing(word, rest),
            "room" => self.set_room(rest),
            "row" => self.put(rest),
            "$" => self.command(rest),
            _ => Err(Stop::Fault(UNKNOWN)),
        }
    }

    // Does what a line says, by its first word.
    fn take(&mut self, line: &str, word: &str, rest: &str) -> Result<(), Stop> {
        match word {
            "as" => self.set_caller(rest),
            "times" => self.set_times(rest),
            "GET" | "HEAD" | "POST" | "PUT" | "PATCH" | "DELETE" => self.request(line, rest),
            "send" => self.send_bytes(rest),
            "<" => self.input_line(rest),
            "input" => self.input(rest),
            _ => self.set(word, rest),
        }
    }

    // Does what a line of text says, with what goes on with it.
    fn do_line(&mut self, line: &str) -> Result<(), Stop> {
        if let Some(rest) = line.strip_prefix("  ") {
            return want(self.alloc, &mut self.trial, self.line, rest);
        }
        if line.is_empty() {
            return self.finish();
        }
        if line.starts_with('#') {
            return Ok(());
        }
        if line.starts_with('{') {
            return self.set_json(line);
        }
        let (word, rest) = line.split_once(' ').unwrap_or((line, ""));
        self.take(line, word, rest)
    }

    // Does what the lines of a text say; the one that may go on is put together in `open`.
    fn do_lines(&mut self, text: &str, open: &mut String) -> Result<(), Stop> {
        let mut number = 0u64;
        for line in text.split('\n') {
            number = number.saturating_add(1);
            match line.strip_prefix("    ") {
                Some(more) => open.push_str(more)?,
                None => {
                    self.do_line(open.as_str())?;
                    open.clear();
                    open.push_str(line)?;
                    self.line = number;
                }
            }
        }
        self.do_line(open.as_str())?;
        self.finish()
    }

    /// Does what the lines of a text say, in which a line of four blanks goes on with the one before.
    ///
    /// # Errors
    ///
    /// Why they end early.
    pub(crate) fn play(&mut self, text: &str) -> Result<(), Stop> {
        let mut open = String::new(self.alloc);
        self.do_lines(text, &mut open)
    }
}
