//! A door over TCP, with clients of its own.

use crate::answer::Answer;
use crate::streams::{door_steps, push_found};
use base_io::{Door, Line, TcpDoor, write_all};
use std::io;
use std::io::Write;
use std::net::{Shutdown, SocketAddr, TcpStream};

// A client that says hello.
fn greet(rt: &HostRuntime, address: SocketAddr) -> io::Result<TcpStream> {
    let mut client = TcpStream::connect(rt, address)?;
    client.write_all(b"hello")?;
    Ok(client)
}

// What the door reads of a client's hello, and the reply that it writes.
fn serve<D: Door>(answer: &mut Answer, door: &mut D) {
    let mut into = [0; 9];
    door_steps(answer, door, &mut into, &["next", "read"]);
    answer.push("; \"");
    answer.push_cell(&into);
    answer.push("\"");
    push_found(answer, &write_all(&mut Line::new(door), b"reply"));
}

// Ends what a client writes, and connects a second one, at which the door ends the first one's connection.
fn meet_second<D: Door>(
    rt: &HostRuntime,
    answer: &mut Answer,
    door: &mut D,
    client: &TcpStream,
    address: SocketAddr,
) -> io::Result<()> {
    client.shutdown(Shutdown::Write)?;
    let _second = TcpStream::connect(rt, address)?;
    door_steps(answer, door, &mut [0; 9], &["next"]);
    Ok(())
}

// A client that says hello and reads the reply, and a second one, at whose connection the first one's ends.
fn meet_clients<D: Door>(
    rt: &HostRuntime,
    answer: &mut Answer,
    door: &mut D,
    address: SocketAddr,
) -> io::Result<()> {
    let client = greet(rt, address)?;
    serve(answer, door);
    meet_second(rt, answer, door, &client, address)?;
    let reply = io::read_to_string(rt.alloc(), client)?;
    push_found(answer, &reply.as_str());
    Ok(())
}

// What an open door does before a client comes.
fn wait_for_clients<D: Door>(answer: &mut Answer, door: &mut D) {
    let steps = ["open", "read", "write w", "write "];
    door_steps(answer, door, &mut [0; 9], &steps);
}

/// What each step of a scenario over TCP returns: of a door before it is opened, after that, and with clients.
///
/// # Errors
///
/// If out of memory, or if a client fails.
pub fn tcp(rt: &HostRuntime, answer: &mut Answer) -> io::Result<()> {
    let mut door = TcpDoor::new(rt.clone()?, 0);
    door_steps(answer, &mut door, &mut [0; 9], &["next", "open"]);
    let Some(address) = door.address() else {
        return Ok(());
    };
    wait_for_clients(answer, &mut door);
    push_found(answer, &(door.address() == Some(address)));
    meet_clients(rt, answer, &mut door, address)
}
