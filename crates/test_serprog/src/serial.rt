//! Our client by a serial device that ends.

use crate::connection::{erased, program};
use crate::device::{Device, Devices, PATH};
use crate::peer::serve_twice;
use chip_model::SpiBus;
use chip_watch::WatchedBus;
use serprog::Serprog;
use serprog_link::{SerialDialer, SerialIn, SerialOut};
use std::net::{Ipv4Addr, SocketAddr, TcpListener};
use std::test::*;
use std::thread;
use std::time::Duration;

type Client<'d, 'r> = Serprog<
    SerialIn<'d, Devices<'r, HostRuntime>, Device<'r, HostRuntime>>,
    SerialOut<Device<'r, HostRuntime>>,
    SerialDialer<'d, 'static, Devices<'r, HostRuntime>>,
>;

/// A port of the loopback address that is free, and the device that is a connection to it.
fn plug<'r>(rt: &'r HostRuntime) -> Result<(TcpListener, Devices<'r, HostRuntime>), Fail> {
    let listener = TcpListener::bind(rt, SocketAddr::from((Ipv4Addr::LOCALHOST, 0)))?;
    let devices = Devices::new(rt, listener.local_addr()?);
    Ok((listener, devices))
}

#[test]
fn a_device_that_ends_is_opened_anew_after_half_a_second(rt: HostRuntime) -> Result<(), Fail> {
    // The 42nd command is 06h, the 43rd the program, which gets no answer.
    let (listener, devices) = plug(&rt)?;
    let chip = erased(rt.alloc())?;
    let alloc = rt.alloc();
    let peer = thread::spawn(
        &rt,
        move || serve_twice(alloc, listener, chip, [42, u32::MAX]),
    );
    let Ok(peer) = peer else {
        return Err(Fail::new("no thread"));
    };
    let client = Client::open(
        SerialDialer::new(&devices, PATH, Duration::from_secs(10)),
        None,
    )?;
    let mut bus = WatchedBus::open(alloc, client)?;
    assert!(rt; !program(&mut bus));
    assert!(rt; bus.departure().is_some());
    let before = devices.slept();
    bus.power_on();
    assert_eq!(rt; bus.departure(), None);
    let slept = devices.slept().saturating_sub(before);
    assert!(rt; slept >= 500 && slept < 600, "{slept}");
    drop(bus);
    let chip = peer.join(&rt);
    assert_eq!(rt; chip.bytes()[0x12FF], 0x70);
    Ok(())
}
