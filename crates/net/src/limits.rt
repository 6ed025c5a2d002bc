// How large a layout, a hall or a foreign table may be. Channels are numbered by 16 bits, doors and places by 8.
pub const CHANNELS: usize = 65535;

pub const DOORS: usize = 256;

pub const PLACES: usize = 256;

pub const SWITCHES: u8 = 64;

pub const CABLES: u16 = 128;

// How many blocks a store may have room for.
pub const ROOM: u8 = 32;

pub const FOREIGN_CHANNELS: u16 = 320;

pub const FOREIGN_PLACES: u8 = 64;
