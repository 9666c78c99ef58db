//! A law of a disk's answers, with no work at run time. Source: own.

ghost use Rattle.flash_host.specs.ReadingBack.{IsReadBack};

use block_device::write_replaces_sectors;

/// A `Read` that is done gives what the last `Write` of its sector that was done had, whatever was
/// answered between, losses of power too, while no operation is slow.
pub fn what_was_written_is_read_back()
    ensures { IsReadBack }
{
    write_replaces_sectors();
}
