//! Connections over loopback, in the same process as their clients.

use super::begun::{BAD_REQUEST, BEGUN, KEYED, KEYING};
use super::clients::{Jumping, Port};
use super::disks::Disks;
use super::steps::Step;
use super::test_host::{TestHost, expect, run_parts};
use mio::net::TcpListener;
use sockets::{Loopback, Poller, SocketNetwork};
use std::cell::RefCell;
use std::io::{Read, Write};
use std::net::{Ipv4Addr, SocketAddr, TcpStream};
use std::process::Abort;
use std::test::Fail;

/// Returns a client that has sent `sends` and stays connected.
fn connected(rt: &HostRuntime, office: SocketAddr, sends: &str) -> Result<TcpStream, Fail> {
    let mut stream = TcpStream::connect(rt, office)?;
    stream.write_all(sends.as_bytes())?;
    Ok(stream)
}

/// Returns the response that a client gets.
fn received(rt: &HostRuntime, mut stream: TcpStream) -> Result<String, Fail> {
    let mut text = Vec::new(rt.alloc());
    stream.read_to_end(&mut text)?;
    Ok(String::from_utf8(text)?)
}

/// Serves the clients of a port.
fn serve<M: TestHost + Drop>(rt: &(impl Abort + AllocGlobal), port: &Port) -> Result<(), Fail> {
    let host: M = run_parts(rt, BEGUN)?;
    expect(rt, host, &[(Step::Listen(port), (0, "Ok(())", ""))])?;
    Ok(())
}

/// The first of three clients is silent. It delays neither of the other two, and is closed.
#[test]
fn connections_are_answered_side_by_side(rt: HostRuntime) -> Result<(), Fail> {
    let listener = TcpListener::bind(&rt, SocketAddr::from((Ipv4Addr::LOCALHOST, 0)))?;
    let office = listener.local_addr()?;
    let clients = Loopback {
        ipv4: listener,
        ipv6: None,
    };
    let port = Port {
        network: RefCell::new(SocketNetwork {
            poller: Poller::new(&rt, rt.alloc(), clients, None)?,
            clock: Jumping::by(31),
        }),
        connections: 3,
    };
    let silent = connected(&rt, office, "")?;
    let wrong = connected(&rt, office, "X\r\n\r\n")?;
    let keying = connected(&rt, office, KEYING)?;
    serve::<Disks>(&rt, &port)?;
    assert_eq!(rt; received(&rt, silent)?.as_str(), "");
    assert_eq!(rt; received(&rt, wrong)?.as_str(), BAD_REQUEST);
    assert_eq!(rt; received(&rt, keying)?.as_str(), KEYED);
    Ok(())
}
