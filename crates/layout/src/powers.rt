// The powers of two that stand between the fields of a layout.
pub const P3: u64 = 1 << 3;

pub const P6: u64 = 1 << 6;

pub const P7: u64 = 1 << 7;

pub const P8: u64 = 1 << 8;

pub const P12: u64 = 1 << 12;

pub const P16: u64 = 1 << 16;

pub const P18: u64 = 1 << 18;

pub const P20: u64 = 1 << 20;

pub const P24: u64 = 1 << 24;

pub const P27: u64 = 1 << 27;

pub const P28: u64 = 1 << 28;

pub const P30: u64 = 1 << 30;

pub const P32: u64 = 1 << 32;

pub const P36: u64 = 1 << 36;

pub const P37: u64 = 1 << 37;

pub const P38: u64 = 1 << 38;

pub const P40: u64 = 1 << 40;

pub const P41: u64 = 1 << 41;

pub const P46: u64 = 1 << 46;

pub const P48: u64 = 1 << 48;

pub const P49: u64 = 1 << 49;

pub const P50: u64 = 1 << 50;

pub const P56: u64 = 1 << 56;

pub const P60: u64 = 1 << 60;

pub const P63: u64 = 1 << 63;

// Those of a number of 32 bits.
pub const P19: u32 = 1 << 19;

pub const P22: u32 = 1 << 22;
