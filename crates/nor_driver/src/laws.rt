//! A law of what a chip tells, with no work at run time. Source: datasheet of the W25Q128JV,
//! "Status Registers".

ghost use Rattle.nor_driver.specs.Probe.{RegistersTellProtection};

/// BP0 to BP2, SEC, CMP and WPS, as the status registers tell them, are all 0 exactly where nothing
/// of the chip is protected.
pub fn registers_tell_protection()
    ensures { RegistersTellProtection }
{}
