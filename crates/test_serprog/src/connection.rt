//! Our client and our server, over a connection of the loopback address that ends.

use crate::peer::serve_twice;
use chip_model::SpiBus;
use chip_simulator::SimChip;
use chip_watch::WatchedBus;
use serprog::Serprog;
use serprog_link::{TcpDialer, TcpIn, TcpOut};
use std::alloc::Global;
use std::net::{Ipv4Addr, Net, SocketAddr, TcpListener, TcpStream};
use std::test::*;
use std::thread;
use std::time::{Clock, Duration};

type Client<'r, 'p> = Serprog<TcpIn, TcpOut, TcpDialer<'r, 'p, HostRuntime>>;

/// An erased chip of 64 KiB.
pub fn erased(alloc: Global) -> Result<SimChip, Fail> {
    let mut bytes = Vec::new(alloc);
    bytes.resize(65_536, 0xFF)?;
    Ok(SimChip::new(bytes)?)
}

/// A port of the loopback address that is free, and its place as a text.
fn listen(rt: &HostRuntime) -> Result<(TcpListener, String), Fail> {
    let listener = TcpListener::bind(rt, SocketAddr::from((Ipv4Addr::LOCALHOST, 0)))?;
    let port = listener.local_addr()?.port();
    let place = format!(in rt.alloc(); "127.0.0.1:{port}")?;
    Ok((listener, place))
}

/// A program of 70h at 12FFh, until it ends or is lost.
pub fn program(bus: &mut impl SpiBus) -> bool {
    if bus.transact(&[0x06], &mut []).is_err() {
        return false;
    }
    if bus
        .transact(&[0x02, 0x00, 0x12, 0xFF, 0x70], &mut [])
        .is_err()
    {
        return false;
    }
    for _ in 0..10u32 {
        let mut status = [0u8; 1];
        if bus.transact(&[0x05], &mut status).is_err() {
            return false;
        }
        if status[0] % 2 == 0 {
            return true;
        }
    }
    false
}

#[test]
fn a_connection_that_ends_is_begun_anew(rt: HostRuntime) -> Result<(), Fail> {
    // The greeting has 19 commands, 8 NOPs among them, the opening 22: the wait, 04h, the
    // registers, the table and 16 pieces. So the 42nd is 06h, the 43rd the program, and then come
    // its end and what was written.
    for most in 41..46u32 {
        let (listener, place) = listen(&rt)?;
        let chip = erased(rt.alloc())?;
        let alloc = rt.alloc();
        let peer = thread::spawn(
            &rt,
            move || serve_twice(alloc, listener, chip, [most, u32::MAX]),
        );
        let Ok(peer) = peer else {
            return Err(Fail::new("no thread"));
        };
        let dialer = TcpDialer::new(&rt, place.as_str(), Duration::from_secs(5));
        let mut bus = WatchedBus::open(alloc, Client::open(dialer, None)?)?;
        assert!(&rt; !program(&mut bus));
        assert!(&rt; bus.departure().is_some());
        bus.power_on();
        assert_eq!(&rt; bus.departure(), None);
        let again = if most == 41 { program(&mut bus) } else { true };
        assert!(&rt; again);
        let mut byte = [0u8; 1];
        assert!(&rt; bus.transact(&[0x03, 0x00, 0x12, 0xFF], &mut byte).is_ok());
        assert_eq!(&rt; byte, [0x70]);
        drop(bus);
        let chip = peer.join(&rt);
        assert_eq!(&rt; chip.bytes()[0x12FF], 0x70);
    }
    Ok(())
}
