//! A run to come, and what must come of it.

use crate::cases::stop::{NOTHING_ASKED, NOTHING_RUNS, Stop};
use std::alloc::{AllocError, Global};

/// What runs.
#[derive(Clone, Copy)]
pub(crate) enum Asked {
    Nothing,
    /// The requests of a connection.
    Connection,
    /// A command.
    Command,
    /// A line of JSON.
    Json,
}

/// A piece of standard output that is wanted so often, by the number of its line.
#[derive(Drop)]
pub(crate) struct Piece {
    pub(crate) line: u64,
    pub(crate) times: u64,
    /// Its bytes, or of a reply the lines of its head.
    pub(crate) front: Vec<u8>,
    /// Of a reply the empty line behind these, and the body.
    pub(crate) back: Vec<u8>,
}

/// A run to come: what is asked from which line on, and what must come of it.
#[derive(Drop)]
pub(crate) struct Trial {
    asked: Asked,
    // How many requests and commands there are.
    count: u64,
    // How often the last request comes, while it has no reply.
    waiting: Option<u64>,
    pub(crate) line: u64,
    pub(crate) pieces: Vec<Piece>,
    pub(crate) status: u8,
    pub(crate) rows: u64,
    pub(crate) shown: u64,
    pub(crate) report: String,
}

impl Trial {
    /// Nothing is asked.
    pub(crate) fn new(alloc: Global) -> Trial {
        Trial {
            asked: Asked::Nothing,
            count: 0,
            waiting: None,
            line: 0,
            pieces: Vec::new(alloc),
            status: 0,
            rows: 0,
            shown: 0,
            report: String::new(alloc),
        }
    }

    /// What runs from this line on, with so many commands, of which nothing is wanted so far.
    pub(crate) fn begin(&mut self, line: u64, asked: Asked, count: u64) {
        self.asked = asked;
        self.count = count;
        self.waiting = None;
        self.line = line;
        self.pieces.clear();
        self.status = 0;
        self.rows = 0;
        self.shown = 0;
        self.report.clear();
    }

    /// How many requests and commands there are.
    pub(crate) fn count(&self) -> u64 {
        self.count
    }

    /// What runs, which is asked no more.
    pub(crate) fn end(&mut self) -> Asked {
        let asked = self.asked;
        self.asked = Asked::Nothing;
        self.count = 0;
        asked
    }

    /// Whether it is a connection.
    pub(crate) fn is_connection(&self) -> bool {
        matches!(self.asked, Asked::Connection)
    }

    /// Whether the last request has no reply so far.
    pub(crate) fn is_waiting(&self) -> bool {
        self.waiting.is_some()
    }

    /// Refuses what follows nothing that runs.
    pub(crate) fn check_runs(&self) -> Result<(), Stop> {
        match self.asked {
            Asked::Nothing => Err(Stop::Fault(NOTHING_RUNS)),
            Asked::Connection | Asked::Command | Asked::Json => Ok(()),
        }
    }

    /// A request comes so often.
    pub(crate) fn ask(&mut self, times: u64) {
        self.waiting = Some(times);
        self.count = self.count.saturating_add(times);
    }

    /// How often the last request comes, whose reply is wanted from here on.
    pub(crate) fn answer(&mut self) -> Result<u64, Stop> {
        match self.waiting.take() {
            Some(times) => Ok(times),
            None => Err(Stop::Fault(NOTHING_ASKED)),
        }
    }

    /// Adds a piece of what must be written; one with a back is a reply.
    ///
    /// # Errors
    ///
    /// If out of memory.
    pub(crate) fn add(
        &mut self,
        alloc: Global,
        line: u64,
        times: u64,
        front: &[u8],
        back: &[u8],
    ) -> Result<(), AllocError> {
        let front = Vec::from_slice(alloc, front)?;
        let back = Vec::from_slice(alloc, back)?;
        self.pieces.push(Piece {
            line,
            times,
            front,
            back,
        })?;
        Ok(())
    }

    /// Adds a line to the head of the last reply.
    ///
    /// # Errors
    ///
    /// If the last piece isn't a reply, or out of memory.
    pub(crate) fn add_header(&mut self, line: &str) -> Result<(), Stop> {
        let Some(piece) = self.pieces.last_mut() else {
            return Err(Stop::Fault(NOTHING_ASKED));
        };
        if piece.back.is_empty() {
            return Err(Stop::Fault(NOTHING_ASKED));
        }
        piece.front.extend_from_slice(line.as_bytes())?;
        piece.front.extend_from_slice(b"\r\n")?;
        Ok(())
    }
}
