//! What follows from the definitions, with no work at run time. Source: own.

ghost use Rattle.sector_stock.specs.Room.{NeverFull, SlotsOutnumberSectors, SoundMapsHaveRoom};

/// Outside one block there are at least seven slots more than sectors.
pub fn slots_outnumber_sectors()
    ensures { SlotsOutnumberSectors }
{}

/// Where no slot outside the reserve is free, one is dead.
pub fn never_full()
    ensures { NeverFull }
{}

/// A sound map at rest has room.
pub fn sound_maps_have_room()
    ensures { SoundMapsHaveRoom }
{}
