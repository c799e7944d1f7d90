ghost use Rattle.std.specs.Prelude.{◌≡◌, ◌<◌, false, length, true, IfOk, IsErr, IsSome, None, Ok, OnOk};
ghost use Rattle.std.specs.Io.{ReadsAtMost, WritesAtMost};
ghost use Rattle.std.specs.Option.{is_some};
ghost use Rattle.base_value.specs.Causes.{Cause};
ghost use Rattle.base_io.specs.Tcp.{TcpState};

use crate::door::Door;
use crate::reply_lines::say_reply;
use crate::schedule::one_more;
use crate::tcp_connection::TcpConnection;
use crate::tcp_listener::Port;
use crate::traits::IoFail;
use std::fs::Files;
use std::io;
use std::io::ErrorKind;
use std::marker::Model;
use std::net::{Net, SocketAddr, TcpListener, TcpStream};
use std::time::Clock;

/// A door over TCP on loopback, at 127.0.0.1. It tells nothing of its connections.
///
/// - `open` listens, and says so in one line on standard error, as `carmuguur: listening on 127.0.0.1:8080`. The system
///   lets as many clients wait as it may.
/// - `next` waits for a client, for ever if none comes. It never returns false. A client for which the system has no
///   handle waits, which is said once a minute.
/// - A client is waited for 30 seconds in all in one request, from its first byte to the end of its reply. The program's own
///   work doesn't count. Before the first byte of a request it is waited for 5 seconds; after the first reply, while another
///   client waits, for 100 milliseconds. Then the read or the write fails. A request is what comes between two replies.
/// - A connection ends at the next call of `next`, or where the door is dropped: what was written is sent, and then the
///   end. What the client still sends is read and dropped, until it ends too or was waited for a second in all. After 1,024
///   reads of at most 4,096 bytes the connection is closed all the same.
/// - A reply of 500, 503 or 507 is said in a line on standard error as it begins, as `carmuguur: "GET /x HTTP/1.1" 503`. A
///   reply begins with a piece that is written behind a whole one. Of the request's first line the first 80 bytes are
///   said, or `-` if none came since the reply before.
#[derive(Debug, Drop)]
pub struct TcpDoor<R> {
    rt: R,
    port: u16,
    // Every reply is said.
    says_all: bool,
    listener: Option<Port>,
    // The present connection.
    connection: Option<TcpConnection>,
    faults: u64,
    line_faults: u64,
}

impl<R> Model for TcpDoor<R> {
    ghost Value = { TcpState };

    ghost view = { λ d. record {
      listens = is_some d.listener;
      connected = is_some d.connection;
      faults = d.faults;
      line_faults = d.line_faults;
    } };
}

// Listens on loopback, and says where.
fn listen<R: Net<Listener = TcpListener, Stream = TcpStream> + Eprint>(
    rt: &R,
    port: u16,
) -> io::Result<Port> {
    let listener = Port::listen(rt, port)?;
    let address = listener.address()?;
    // A client can be served without the line.
    let _ = eprintln!(rt; "carmuguur: listening on {address}");
    Ok(listener)
}

// Says why a port of loopback failed.
fn say_failed<R: Eprint>(rt: &R, port: u16, error: &io::Error) {
    let _ = match error.kind() {
        ErrorKind::AddrInUse => {
            eprintln!(rt; "carmuguur: 127.0.0.1:{port}: another program listens there")
        }
        ErrorKind::PermissionDenied => {
            eprintln!(rt; "carmuguur: 127.0.0.1:{port}: no permission to listen there")
        }
        _ => eprintln!(rt; "carmuguur: 127.0.0.1:{port}: {error}"),
    };
}

impl<R> TcpDoor<R> {
    /// A door that will listen at this port of 127.0.0.1, from 0 to 65535. At 0 the system chooses a free port.
    pub fn new(rt: R, port: u16) -> TcpDoor<R>
        ensures { result ≡ record { listens = false; connected = false; faults = 0; line_faults = 0 } }
    {
        TcpDoor {
            rt,
            port,
            says_all: false,
            listener: None,
            connection: None,
            faults: 0,
            line_faults: 0,
        }
    }

    /// The same door, which says every reply: `carmuguur: 2011-04-26T12:00:00Z "GET /x HTTP/1.1" 200 65`, with the moment at
    /// which it begins, and its bytes.
    pub fn saying_all(self) -> TcpDoor<R>
        ensures { result ≡ self }
    {
        TcpDoor {
            says_all: true,
            ..self
        }
    }

    /// The address at which it listens, if it does and the system gives the address.
    pub fn address(&self) -> Option<SocketAddr>
        ensures { IsSome result → self.now.listens ≡ true }
    {
        match &self.listener {
            Some(listener) => listener.address().ok(),
            None => None,
        }
    }

    // Counts a fault of the door.
    fn fault(&mut self) -> IoFail
        ensures cause { Cause self.old.faults self.new.faults (Unit {0}) }
        ensures others { self.new ≡ record self.old { faults = self.new.faults } }
    {
        self.faults = one_more(self.faults);
        IoFail
    }

    // Counts a fault of the present connection.
    fn line_fault(&mut self) -> IoFail
        ensures cause { Cause self.old.line_faults self.new.line_faults (Unit {0}) }
        ensures others { self.new ≡ record self.old { line_faults = self.new.line_faults } }
    {
        self.line_faults = one_more(self.line_faults);
        IoFail
    }
}

impl<R: Clock + Eprint + Files + Alloc> TcpDoor<R> {
    /// Ends the present connection, and waits for the next one, or until the program is told to end: it returns false then.
    pub(crate) fn next_unless_told(&mut self) -> Result<bool, IoFail>
        ensures found { IfOk result (λ found. self.new.connected ≡ found) }
        ensures ended { IsErr result → self.new.connected ≡ false }
        ensures unopened { self.old.listens ≡ false → IsErr result }
        ensures listens { self.new.listens ≡ self.old.listens }
        ensures line_faults { self.new.line_faults ≡ self.old.line_faults }
        ensures cause { Cause self.old.faults self.new.faults (IsErr result) }
    {
        self.connection = None;
        let Some(listener) = &mut self.listener else {
            return Err(self.fault());
        };
        match listener.next_unless_told(&self.rt) {
            Ok(Some(connection)) => {
                self.connection = Some(connection);
                Ok(true)
            }
            Ok(None) => Ok(false),
            Err(error) => {
                say_failed(&self.rt, self.port, &error);
                Err(self.fault())
            }
        }
    }
}

impl<R: Net<Listener = TcpListener, Stream = TcpStream> + Clock + Eprint> Door for TcpDoor<R> {
    ghost held = { λ _. None };

    ghost faults = { λ d. d.faults };

    ghost line_faults = { λ d. d.line_faults };

    /// Listens, and says so. If it listens already, nothing changes.
    ///
    /// # Errors
    ///
    /// If it can't listen, as where another program has the port.
    fn open(&mut self) -> Result<(), IoFail>
        ensures listens { OnOk result (self.new.listens ≡ true) }
        ensures again { self.old.listens ≡ true → (result ≡ Ok tt) × (self.new ≡ self.old) }
        ensures line_faults { self.new.line_faults ≡ self.old.line_faults }
        ensures cause { Cause self.old.faults self.new.faults (IsErr result) }
    {
        if self.listener.is_some() {
            return Ok(());
        }
        match listen(&self.rt, self.port) {
            Ok(listener) => {
                self.listener = Some(listener);
                Ok(())
            }
            Err(error) => {
                say_failed(&self.rt, self.port, &error);
                Err(self.fault())
            }
        }
    }

    /// Ends the present connection, and waits for the next one.
    ///
    /// # Errors
    ///
    /// If the door isn't open, or if the system gives no connection. There is no present connection then, even if there
    /// was one: it has ended.
    fn next(&mut self) -> Result<bool, IoFail>
        ensures found { IfOk result (λ found. (found ≡ true) × (self.new.connected ≡ true)) }
        ensures ended { IsErr result → self.new.connected ≡ false }
        ensures unopened { self.old.listens ≡ false → IsErr result }
        ensures listens { self.new.listens ≡ self.old.listens }
        ensures line_faults { self.new.line_faults ≡ self.old.line_faults }
        ensures cause { Cause self.old.faults self.new.faults (IsErr result) }
    {
        self.connection = None;
        let Some(listener) = &mut self.listener else {
            return Err(self.fault());
        };
        match listener.next(&self.rt) {
            Ok(connection) => {
                self.connection = Some(connection);
                Ok(true)
            }
            Err(error) => {
                say_failed(&self.rt, self.port, &error);
                Err(self.fault())
            }
        }
    }

    /// Reads from the present connection. Without one it returns 0.
    ///
    /// # Errors
    ///
    /// If the connection fails, or if nothing comes for as long as the client is waited for.
    fn read(&mut self, into: &mut [u8]) -> Result<usize, IoFail>
        ensures bound { ReadsAtMost result into.new }
        ensures unconnected { self.old.connected ≡ false → result ≡ Ok 0 }
        ensures others { self.new ≡ record self.old { line_faults = self.new.line_faults } }
        ensures faults { self.new.faults ≡ self.old.faults }
        ensures cause { Cause self.old.line_faults self.new.line_faults (IsErr result) }
    {
        let listener = match &self.listener {
            Some(listener) => listener.descriptor(),
            None => -1,
        };
        let Some(connection) = &mut self.connection else {
            return Ok(0);
        };
        match connection.read(&self.rt, listener, into) {
            Ok(count) => Ok(count),
            Err(_) => Err(self.line_fault()),
        }
    }

    /// Writes to the present connection.
    ///
    /// # Errors
    ///
    /// If the piece isn't empty and there is no connection, or nothing is taken for as long as the client is waited for; or
    /// if the connection fails.
    fn write(&mut self, piece: &[u8]) -> Result<usize, IoFail>
        ensures bound { WritesAtMost result piece.now }
        ensures progress { IfOk result (λ n. 0 < length piece.now → 0 < n) }
        ensures unconnected { self.old.connected ≡ false → 0 < length piece.now → IsErr result }
        ensures others { self.new ≡ record self.old { line_faults = self.new.line_faults } }
        ensures faults { self.new.faults ≡ self.old.faults }
        ensures cause { Cause self.old.line_faults self.new.line_faults (IsErr result) }
    {
        let Some(connection) = &mut self.connection else {
            if piece.is_empty() {
                return Ok(0);
            }
            return Err(self.line_fault());
        };
        if let Some(request) = connection.request_of(piece) {
            say_reply(&self.rt, request, piece, self.says_all);
        }
        match connection.write(&self.rt, piece) {
            Ok(count) => Ok(count),
            Err(_) => Err(self.line_fault()),
        }
    }
}
