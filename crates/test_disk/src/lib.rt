//! Tests of the chip side that are no cases of `test_cases`: chips whose memory is a file, a run of
//! erases cut in each change, a long run of the map of sectors with losses, the disk's wear and how
//! it is levelled, a settling with weak bits and cut in each change, a mount without memory, the
//! files of images, a log that ends at each byte, what a failing call, a kill and a loss of the
//! host's power leave of an image and its log, and a connection's text cut at each place.
//!
//! There is no product code here. `first_of_new` formats a chip, mounts it as a sound disk and
//! reads its first sector, so that the contracts of `format`, `mount` and `read` meet: it is proved
//! to give zeros. `first_lives` mounts it firmly and runs a script on it, so that the contracts of
//! `format` and `run_mounted` meet, and `new_lives` makes the disk of its lives. The chips are
//! `chip_simulator::SimChip`, of 64 KiB, one of them of 1 MiB.

#![tactic(auto)]

#[cfg(test)]
mod chip_files;
#[cfg(test)]
mod cuttings;
#[cfg(test)]
mod firm_mounts;
#[cfg(test)]
mod first_sector;
mod fresh;
mod fresh_lives;
#[cfg(test)]
mod host;
#[cfg(test)]
mod host_power;
#[cfg(test)]
mod image_files;
#[cfg(test)]
mod journal_chips;
#[cfg(test)]
mod journal_sweep;
#[cfg(test)]
mod level;
mod lives;
#[cfg(test)]
mod logs;
#[cfg(test)]
mod long_run;
#[cfg(test)]
mod maps;
#[cfg(test)]
mod mount_memory;
#[cfg(test)]
mod past;
#[cfg(test)]
mod phrases;
#[cfg(test)]
mod replacing;
#[cfg(test)]
mod restored_lives;
#[cfg(test)]
mod rows;
#[cfg(test)]
mod scripts;
#[cfg(test)]
mod settling;
#[cfg(test)]
mod station_wear;
#[cfg(test)]
mod torn_lives;
#[cfg(test)]
mod unlucky;
#[cfg(test)]
mod waverer;
#[cfg(test)]
mod wear;
#[cfg(test)]
mod writes;

pub use fresh::first_of_new;
pub use fresh_lives::new_lives;
pub use lives::first_lives;
