ghost use Rattle.std.specs.Prelude.{◌≡◌, ◌<◌, false, length, true, IfOk, IsErr, None, Ok, OnOk};
ghost use Rattle.std.specs.Io.{ReadsAtMost, WritesAtMost};
ghost use Rattle.base_value.specs.Causes.{Cause};
ghost use Rattle.base_io.specs.Tcp.{TcpState};

use crate::door::Door;
use crate::tcp_door::TcpDoor;
use crate::traits::IoFail;
use std::fs::Files;
use std::marker::Model;
use std::net::{Net, TcpListener, TcpStream};
use std::time::Clock;

/// A door over TCP through which no further connection comes once the program is told to end, by SIGINT or SIGTERM.
///
/// `next` looks for such a signal each second in which no client comes, and after every hundred connections, and returns
/// false if one waits. A signal waits where the program was started with it blocked, as by `env --block-signal=INT,TERM`.
/// Otherwise it ends the program at once, or, as process 1 of a container, does nothing. All else is as of `TcpDoor`.
#[derive(Debug, Drop)]
pub struct StoppableDoor<R> {
    door: TcpDoor<R>,
}

impl<R> Model for StoppableDoor<R> {
    ghost Value = { TcpState };

    ghost view = { λ d. d.door };
}

impl<R> StoppableDoor<R> {
    /// The door that heeds the signals.
    pub fn new(door: TcpDoor<R>) -> StoppableDoor<R>
        ensures { result ≡ door }
    {
        StoppableDoor { door }
    }
}

impl<R: Net<Listener = TcpListener, Stream = TcpStream> + Clock + Eprint + Files + Alloc> Door
    for StoppableDoor<R> {
    ghost held = { λ _. None };

    ghost faults = { λ d. d.faults };

    ghost line_faults = { λ d. d.line_faults };

    fn open(&mut self) -> Result<(), IoFail>
        ensures listens { OnOk result (self.new.listens ≡ true) }
        ensures again { self.old.listens ≡ true → (result ≡ Ok tt) × (self.new ≡ self.old) }
        ensures line_faults { self.new.line_faults ≡ self.old.line_faults }
        ensures cause { Cause self.old.faults self.new.faults (IsErr result) }
    {
        self.door.open()
    }

    /// Ends the present connection, and waits for the next one. It returns false if the program is told to end, and there
    /// is no present connection then.
    ///
    /// # Errors
    ///
    /// If the door isn't open, or if the system gives no connection. There is no present connection then, even if there
    /// was one: it has ended.
    fn next(&mut self) -> Result<bool, IoFail>
        ensures found { IfOk result (λ found. self.new.connected ≡ found) }
        ensures ended { IsErr result → self.new.connected ≡ false }
        ensures unopened { self.old.listens ≡ false → IsErr result }
        ensures listens { self.new.listens ≡ self.old.listens }
        ensures line_faults { self.new.line_faults ≡ self.old.line_faults }
        ensures cause { Cause self.old.faults self.new.faults (IsErr result) }
    {
        self.door.next_unless_told()
    }

    fn read(&mut self, into: &mut [u8]) -> Result<usize, IoFail>
        ensures bound { ReadsAtMost result into.new }
        ensures unconnected { self.old.connected ≡ false → result ≡ Ok 0 }
        ensures others { self.new ≡ record self.old { line_faults = self.new.line_faults } }
        ensures faults { self.new.faults ≡ self.old.faults }
        ensures cause { Cause self.old.line_faults self.new.line_faults (IsErr result) }
    {
        self.door.read(into)
    }

    fn write(&mut self, piece: &[u8]) -> Result<usize, IoFail>
        ensures bound { WritesAtMost result piece.now }
        ensures progress { IfOk result (λ n. 0 < length piece.now → 0 < n) }
        ensures unconnected { self.old.connected ≡ false → 0 < length piece.now → IsErr result }
        ensures others { self.new ≡ record self.old { line_faults = self.new.line_faults } }
        ensures faults { self.new.faults ≡ self.old.faults }
        ensures cause { Cause self.old.line_faults self.new.line_faults (IsErr result) }
    {
        self.door.write(piece)
    }
}
