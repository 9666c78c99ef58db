//! Tests of the program's lines that only a test inside can make: lines that find no memory, files
//! whose n-th write or sync fails, a clock that is a fake, and the texts of faults that don't come.
//!
//! There is no product code here: it is `norbd_run`, which does the lines. All that is seen from
//! outside is tested on the built program, by the files of tests/.

#![tactic(auto)]

#[cfg(test)]
mod memory;
#[cfg(test)]
mod printing;
#[cfg(test)]
mod progress;
#[cfg(test)]
mod serving;
