// The numbers that stand for the program points in a process record: Figure 6's own line numbers, and 20 more in the Copy
// of an SC, which line 20 calls.
// Kept: numbers and no enum, as lent memory holds any number for a line; row 9 refuses those that stand for none.
pub const IDLE: u8 = 0;

pub const WLL_2: u8 = 2;

pub const WLL_4: u8 = 4;

pub const WLL_5: u8 = 5;

pub const WLL_6: u8 = 6;

pub const WLL_7: u8 = 7;

pub const WLL_10: u8 = 10;

pub const VL_13: u8 = 13;

pub const SC_14: u8 = 14;

pub const SC_17: u8 = 17;

pub const SC_19: u8 = 19;

pub const COPY_OF_SC: u8 = 20;

pub const SC_2: u8 = 22;

pub const SC_4: u8 = 24;

pub const SC_5: u8 = 25;

pub const SC_6: u8 = 26;

pub const SC_7: u8 = 27;
