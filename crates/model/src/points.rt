// The numbers that stand for the program points in a process record: Figure 2's own line numbers, and three more for
// the accesses that share a line. Line 16 is done with 15, and 20 to 22 with 19.
// Kept: numbers and no enum, as lent memory holds any number for a line; row 9 refuses those that stand for none.
pub const IDLE: u8 = 0;

pub const LINE_1: u8 = 1;

pub const LINE_2: u8 = 2;

pub const LINE_3: u8 = 3;

pub const LINE_4: u8 = 4;

pub const LINE_5: u8 = 5;

pub const LINE_6: u8 = 6;

pub const LINE_7: u8 = 7;

pub const LINE_8: u8 = 8;

pub const LINE_9: u8 = 9;

pub const LINE_10: u8 = 10;

pub const LINE_11: u8 = 11;

pub const LINE_12: u8 = 12;

pub const LINE_13: u8 = 13;

pub const LINE_14: u8 = 14;

pub const LINE_15: u8 = 15;

pub const LINE_17: u8 = 17;

pub const LINE_18: u8 = 18;

pub const LINE_19: u8 = 19;

pub const LINE_23: u8 = 23;

// The words from BUF[b] of line 7.
pub const LINE_7_COPY: u8 = 24;

// The VL(X) of line 12, and that of line 14.
pub const LINE_12_VALID: u8 = 25;

pub const LINE_14_VALID: u8 = 26;
