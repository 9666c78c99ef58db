//! A programmer that is reached anew once its connection ended, over a port and by a serial device:
//! our client and our server, with connections that end between two frames. No line of the program
//! goes on after that. All that is seen from outside is tested on the built program, by
//! tests/test_chips.py and tests/test_serprog.py.

#![tactic(auto)]

#[cfg(test)]
mod connection;
#[cfg(test)]
mod device;
#[cfg(test)]
mod peer;
#[cfg(test)]
mod serial;
