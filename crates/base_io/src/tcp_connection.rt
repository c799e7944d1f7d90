ghost use Rattle.std.specs.Prelude.{◌<◌, length, IfOk};
ghost use Rattle.std.specs.Io.{ReadsAtMost, WritesAtMost};

use crate::polling::{Want, wait_for, wait_for_either};
use crate::reply_lines::RequestLine;
use crate::traits::IoFail;
use std::io;
use std::io::{ErrorKind, Read, Write};
use std::net::{Shutdown, TcpStream};
use std::os::fd::AsRawFd;
use std::time::{Clock, Duration};

// How long the client is waited for in one request, from its first byte to the end of its reply.
const REQUEST_SECONDS: u64 = 30;

// How long the client may be silent before the first byte of a request. After the first reply it is only waited for that
// long while no other client waits, but always for `GRACE_MILLIS`.
const SILENCE_MILLIS: u64 = 5_000;

const GRACE_MILLIS: u64 = 100;

// At the end of a connection: how many times it is waited for the client, how long each time, how many reads there are at
// most, and for how many bytes each asks.
const LEAVE_WAITS: u32 = 10;

const LEAVE_WAIT_MILLIS: u64 = 100;

const LEAVE_READS: usize = 1024;

const LEAVE_BYTES: usize = 4096;

/// A connection over TCP. It is ended where it is dropped.
#[derive(Debug)]
pub(crate) struct TcpConnection {
    // No call on it waits.
    stream: TcpStream,
    // How long the client may still be waited for in the present request; none before its first byte.
    left: Option<Duration>,
    request: RequestLine,
    // A reply was begun since the last byte came, and ever.
    replied: bool,
    replied_before: bool,
    // The bytes of the present reply that aren't written yet.
    unwritten: usize,
}

impl TcpConnection {
    /// A connection that was taken.
    pub(crate) fn over(stream: TcpStream) -> io::Result<TcpConnection> {
        stream.set_nonblocking(true)?;
        // A reply doesn't wait until the client has acknowledged the one before it.
        stream.set_nodelay(true)?;
        Ok(TcpConnection {
            stream,
            left: None,
            request: RequestLine::new(),
            replied: false,
            replied_before: false,
            unwritten: 0,
        })
    }

    // Behind a reply the next byte begins a request.
    fn expect_request(&mut self) {
        self.left = None;
        self.request = RequestLine::new();
        self.replied = false;
    }

    // Waits for the first byte of a request.
    fn wait_for_request(&mut self, listener: i32) -> Result<(), IoFail> {
        let stream = self.stream.as_raw_fd();
        let alone = if self.replied_before {
            GRACE_MILLIS
        } else {
            SILENCE_MILLIS
        };
        if !wait_for(stream, Want::Bytes, Duration::from_millis(alone))
            && !wait_for_either(
                stream,
                listener,
                Duration::from_millis(SILENCE_MILLIS - alone),
            )
        {
            return Err(IoFail);
        }
        self.left = Some(Duration::from_secs(REQUEST_SECONDS));
        Ok(())
    }

    // Waits for the client within a request.
    fn wait_within<C: Clock>(&mut self, clock: &C, want: Want) -> Result<(), IoFail> {
        let left = self.left.unwrap_or(Duration::from_secs(REQUEST_SECONDS));
        if left.is_zero() {
            return Err(IoFail);
        }
        let begin = clock.monotonic().map_err(|_| IoFail)?;
        let came = wait_for(self.stream.as_raw_fd(), want, left);
        let end = clock.monotonic().map_err(|_| IoFail)?;
        self.left = Some(left.saturating_sub(end.saturating_sub(begin)));
        if came { Ok(()) } else { Err(IoFail) }
    }

    // Waits for bytes of the client, or its end.
    fn wait_for_bytes<C: Clock>(&mut self, clock: &C, listener: i32) -> Result<(), IoFail> {
        if self.replied {
            self.expect_request();
        }
        if self.left.is_none() {
            return self.wait_for_request(listener);
        }
        self.wait_within(clock, Want::Bytes)
    }

    /// Reads bytes into the start of a piece. While another client waits at the listener, a client that was replied to is
    /// waited for less long.
    pub(crate) fn read<C: Clock>(
        &mut self,
        clock: &C,
        listener: i32,
        into: &mut [u8],
    ) -> Result<usize, IoFail>
        ensures { ReadsAtMost result into.new }
    {
        for _ in 0..u64::MAX {
            self.wait_for_bytes(clock, listener)?;
            let mut stream = &self.stream;
            match stream.read(into) {
                Ok(count) => {
                    self.request.push(&into[..count]);
                    return Ok(count);
                }
                Err(error) => {
                    if !is_passing(&error) {
                        return Err(IoFail);
                    }
                }
            }
        }
        Err(IoFail)
    }

    /// The first line of the request that a piece begins to reply to; none if the piece goes on with a reply.
    pub(crate) fn request_of(&self, piece: &[u8]) -> Option<&RequestLine> {
        if self.unwritten == 0 && !piece.is_empty() {
            Some(&self.request)
        } else {
            None
        }
    }

    /// Writes a prefix of a piece, which isn't empty where the piece isn't.
    pub(crate) fn write<C: Clock>(&mut self, clock: &C, piece: &[u8]) -> Result<usize, IoFail>
        ensures bound { WritesAtMost result piece.now }
        ensures progress { IfOk result (λ n. 0 < length piece.now → 0 < n) }
    {
        self.replied = true;
        self.replied_before = true;
        for _ in 0..u64::MAX {
            let mut stream = &self.stream;
            match stream.write(piece) {
                Ok(0) if !piece.is_empty() => return Err(IoFail),
                Ok(count) => {
                    self.unwritten = piece.len() - count;
                    return Ok(count);
                }
                Err(error) => {
                    if !is_passing(&error) {
                        return Err(IoFail);
                    }
                    self.wait_within(clock, Want::Room)?;
                }
            }
        }
        Err(IoFail)
    }

    // Sends the end behind all that was written. Then it reads what the client still sends, since closing a stream with
    // bytes unread resets it: the client might lose the reply. It waits for at most a second in all.
    fn leave(&self) {
        if self.stream.shutdown(Shutdown::Write).is_err() {
            return;
        }
        let mut unread = [0; LEAVE_BYTES];
        let mut waits = LEAVE_WAITS;
        let mut stream = &self.stream;
        for _ in 0..LEAVE_READS {
            match stream.read(&mut unread) {
                Ok(0) => return,
                Ok(_) => {}
                Err(error) => {
                    if !is_passing(&error) || waits == 0 {
                        return;
                    }
                    waits -= 1;
                    wait_for(
                        self.stream.as_raw_fd(),
                        Want::Bytes,
                        Duration::from_millis(LEAVE_WAIT_MILLIS),
                    );
                }
            }
        }
    }
}

// Whether the call can be made again: the client isn't ready, or a signal interrupted it.
fn is_passing(error: &io::Error) -> bool {
    matches!(error.kind(), ErrorKind::WouldBlock | ErrorKind::Interrupted)
}

impl Drop for TcpConnection {
    fn drop(self) {
        self.leave();
        let TcpConnection {
            stream: _,
            left: _,
            request: _,
            replied: _,
            replied_before: _,
            unwritten: _,
        } = self;
    }
}
