// The actions of an event line, 06, and of a target event line, 08, as their bytes have them.
pub const NOTHING: u8 = 0;

pub const SLEEP: u8 = 1;

pub const YIELD: u8 = 2;

pub const HANDOVER: u8 = 3;

pub const UNMASK: u8 = 4;

pub const REBOOT: u8 = 5;

pub const POWER_OFF: u8 = 6;

pub const PANIC: u8 = 7;

pub const INJECT: u8 = 1;

pub const RESET: u8 = 2;
