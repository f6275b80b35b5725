// The names of the segments that the structures have, as numbers: three letters in base 256.

// MSH, MSA, OBR, OBX and PID stand in field_table too: neither judge asks the other for its table.

pub const AL1: u32 = 0x414c31;

pub const CTI: u32 = 0x435449;

pub const DSC: u32 = 0x445343;

pub const ERR: u32 = 0x455252;

pub const EVN: u32 = 0x45564e;

pub const IN1: u32 = 0x494e31;

pub const MRG: u32 = 0x4d5247;

pub const MSA: u32 = 0x4d5341;

pub const MSH: u32 = 0x4d5348;

pub const NK1: u32 = 0x4e4b31;

pub const NTE: u32 = 0x4e5445;

pub const OBR: u32 = 0x4f4252;

pub const OBX: u32 = 0x4f4258;

pub const ORC: u32 = 0x4f5243;

pub const PD1: u32 = 0x504431;

pub const PID: u32 = 0x504944;

pub const PV1: u32 = 0x505631;

pub const PV2: u32 = 0x505632;

pub const ZPD: u32 = 0x5a5044;

pub const ZVI: u32 = 0x5a5649;
