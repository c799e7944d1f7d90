//! A port at which clients connect.

use crate::polling::{Want, pause, wait_for};
use crate::signals::is_told_to_end;
use crate::tcp_connection::TcpConnection;
use std::fs::Files;
use std::io;
use std::io::ErrorKind;
use std::net::{Ipv4Addr, Net, SocketAddr, TcpListener, TcpStream};
use std::os::fd::{AsRawFd, RawFd};
use std::time::{Clock, Duration};

// How many clients may wait. The system cuts the number at its own limit.
const QUEUE: i32 = 65_535;

// How long is waited for a client before it's looked whether the program is told to end, and after how many connections
// it's looked too.
const LOOK_SECONDS: u64 = 1;

const LOOK_CONNECTIONS: u32 = 100;

// How long a client waits where the system has no handle for it, and how often that is said.
const NO_HANDLE_MILLIS: u64 = 100;

const NO_HANDLE_SAID_SECONDS: u64 = 60;

/// A port of 127.0.0.1 at which clients connect.
#[derive(Debug, Drop)]
pub(crate) struct Port {
    listener: TcpListener,
    // When it was last said that the system has no handle.
    said: Option<Duration>,
    // How many connections were taken since it was looked whether the program is told to end.
    unlooked: u32,
}

// Whether the system has no handle or no memory for a client just now: ENOMEM, ENFILE, EMFILE and ENOBUFS of Linux.
fn is_short(error: &io::Error) -> bool {
    matches!(error.raw_os_error(), Some(12 | 23 | 24 | 105))
}

impl Port {
    /// Listens at this port, or at a free one if it is 0.
    pub(crate) fn listen<R: Net<Listener = TcpListener, Stream = TcpStream>>(
        rt: &R,
        port: u16,
    ) -> io::Result<Port> {
        let listener = TcpListener::bind(rt, (Ipv4Addr::LOCALHOST, port))?;
        listener.set_nonblocking(true)?;
        // The system has a queue already, so this one only makes it longer.
        libc::net::listen(listener.as_raw_fd(), QUEUE);
        Ok(Port {
            listener,
            said: None,
            unlooked: LOOK_CONNECTIONS,
        })
    }

    /// The address at which it listens.
    pub(crate) fn address(&self) -> io::Result<SocketAddr> {
        self.listener.local_addr()
    }

    /// The descriptor that can be read while a client waits.
    pub(crate) fn descriptor(&self) -> RawFd {
        self.listener.as_raw_fd()
    }

    // Says that the system has no handle for a client, once a minute.
    fn say_short<R: Clock + Eprint>(&mut self, rt: &R, error: &io::Error) {
        let Ok(now) = rt.monotonic() else {
            return;
        };
        if let Some(said) = self.said
            && now.saturating_sub(said) < Duration::from_secs(NO_HANDLE_SAID_SECONDS)
        {
            return;
        }
        self.said = Some(now);
        let _ = eprintln!(rt; "carmuguur: a client waits: {error}");
    }

    // Takes a client, if one comes in time. One that broke off before it was taken is passed over.
    fn take<R: Clock + Eprint>(&mut self, rt: &R) -> io::Result<Option<TcpConnection>> {
        if !wait_for(
            self.descriptor(),
            Want::Bytes,
            Duration::from_secs(LOOK_SECONDS),
        ) {
            return Ok(None);
        }
        match self.listener.accept() {
            Ok((stream, _)) => Ok(TcpConnection::over(stream).ok()),
            Err(error) if is_short(&error) => {
                self.say_short(rt, &error);
                pause(Duration::from_millis(NO_HANDLE_MILLIS));
                Ok(None)
            }
            Err(error) => match error.kind() {
                ErrorKind::ConnectionAborted | ErrorKind::WouldBlock | ErrorKind::Interrupted => {
                    Ok(None)
                }
                _ => Err(error),
            },
        }
    }

    /// Waits for the next client.
    pub(crate) fn next<R: Clock + Eprint>(&mut self, rt: &R) -> io::Result<TcpConnection> {
        for _ in 0..u64::MAX {
            if let Some(connection) = self.take(rt)? {
                return Ok(connection);
            }
        }
        Err(io::Error::from(ErrorKind::TimedOut))
    }

    /// Waits for the next client, or until the program is told to end: it returns `None` then.
    pub(crate) fn next_unless_told<R: Clock + Eprint + Files + Alloc>(
        &mut self,
        rt: &R,
    ) -> io::Result<Option<TcpConnection>> {
        for _ in 0..u64::MAX {
            if self.unlooked >= LOOK_CONNECTIONS {
                if is_told_to_end(rt) {
                    return Ok(None);
                }
                self.unlooked = 0;
            }
            if let Some(connection) = self.take(rt)? {
                self.unlooked = self.unlooked.saturating_add(1);
                return Ok(Some(connection));
            }
            self.unlooked = LOOK_CONNECTIONS;
        }
        Err(io::Error::from(ErrorKind::TimedOut))
    }
}
