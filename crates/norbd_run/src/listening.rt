//! The place where clients connect to.

ghost use Rattle.std.specs.Prelude.{IfErr};
ghost use Rattle.norbd_line.specs.Line.{IsPlace};
ghost use Rattle.norbd_run.specs.Listening.{IsPlaceRefusal};

use norbd_line::{Cause, Fault, Place, SocketCause};
use norbd_serve::Listener;
use std::io::ErrorKind;
use std::net::{IpAddr, Ipv4Addr, Net, SocketAddr, TcpListener, TcpStream};
use std::os::unix::fs::FileTypeExt;
use std::os::unix::net::{UnixListener, UnixStream};
use std::rt::Files;
use std::{fs, io};

/// How many bytes the path of a Unix socket has at most. Source: unix(7), `sun_path`.
pub(crate) const MOST_PATH: usize = 107;

/// Listens at a place. `BadAddress` where the text of the address is none, `NoSocket` where the
/// place can't be had.
pub fn listen_at<R>(rt: &R, place: Place<'_>) -> Result<Listener, Fault>
where
    R: Files + Net<Listener = TcpListener, Stream = TcpStream>,
    requires { IsPlace place }
    ensures { IfErr result IsPlaceRefusal }
{
    let listener = match place {
        Place::Port { port, bind } => {
            let Some(address) = address_of(bind) else {
                return Err(Fault::BadAddress);
            };
            match listen_on_port(rt, SocketAddr::from((address, port as u16))) {
                Ok(listener) => Ok(listener),
                Err(error) => Err(Cause::System(error.kind())),
            }
        }
        Place::Unix(path) => match listen_on_path(rt, path) {
            Ok(listener) => Ok(Listener::Path(listener)),
            Err(cause) => Err(Cause::Socket(cause)),
        },
    };
    match listener {
        Ok(listener) => Ok(listener),
        Err(cause) => Err(Fault::NoSocket(cause)),
    }
}

/// The address that a text writes, if it is one; without a text 127.0.0.1.
fn address_of(bind: Option<&str>) -> Option<IpAddr> {
    let Some(text) = bind else {
        return Some(IpAddr::from(Ipv4Addr::LOCALHOST));
    };
    match text.parse::<IpAddr>() {
        Ok(address) => Some(address),
        Err(_) => None,
    }
}

/// Takes a port of an address.
fn listen_on_port<R>(rt: &R, address: SocketAddr) -> io::Result<Listener>
where
    R: Net<Listener = TcpListener, Stream = TcpStream>,
{
    Ok(Listener::Port(TcpListener::bind(rt, address)?))
}

/// Makes the Unix socket at a path. One that is there is replaced where nobody listens at it.
pub(crate) fn listen_on_path<R>(rt: &R, path: &str) -> Result<UnixListener, SocketCause>
where
    R: Files + Net,
{
    if path.len() > MOST_PATH {
        return Err(SocketCause::LongPath);
    }
    match UnixListener::bind(rt, path) {
        Ok(listener) => Ok(listener),
        Err(error) if error.kind() == ErrorKind::AddrInUse => listen_in_place(rt, path),
        Err(error) => Err(SocketCause::System(error.kind())),
    }
}

/// Makes the Unix socket at a path in the place of what is there, where that is a socket at which
/// nobody listens, as one that was killed leaves it.
fn listen_in_place<R: Files + Net>(rt: &R, path: &str) -> Result<UnixListener, SocketCause> {
    match fs::symlink_metadata(rt, path) {
        Ok(metadata) if metadata.file_type().is_socket() => {}
        Ok(_) => return Err(SocketCause::NotASocket),
        Err(error) => return Err(SocketCause::System(error.kind())),
    }
    match UnixStream::connect(rt, path) {
        Err(error) if error.kind() == ErrorKind::ConnectionRefused => {}
        _ => return Err(SocketCause::System(ErrorKind::AddrInUse)),
    }
    match listen_anew(rt, path) {
        Ok(listener) => Ok(listener),
        Err(error) => Err(SocketCause::System(error.kind())),
    }
}

/// Removes a socket, and makes another at its path.
fn listen_anew<R: Files + Net>(rt: &R, path: &str) -> io::Result<UnixListener> {
    fs::remove_file(rt, path)?;
    UnixListener::bind(rt, path)
}
