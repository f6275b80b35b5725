// ADT^A40 as tables: MSH EVN { PID [PD1] MRG [PV1] }
use crate::rows::Rows;
use crate::segments;

// The places behind MSH, place 0: bit p is place p.
const EVN: u64 = 1 << 1;

const PID: u64 = 1 << 2;

const PD1: u64 = 1 << 3;

const MRG: u64 = 1 << 4;

const PV1: u64 = 1 << 5;

// The names, by place.
static NAMES: [u32; 6] = [
    segments::MSH,
    segments::EVN,
    segments::PID,
    segments::PD1,
    segments::MRG,
    segments::PV1,
];

// The places that can be filled next, by place.
static FOLLOW: [u64; 6] = [
    EVN, // behind MSH
    PID, // behind EVN
    PD1 | MRG, // behind PID
    MRG, // behind PD1
    PV1 | PID, // behind MRG
    PID, // behind PV1
];

// The places behind which a message can end.
const LAST: u64 = MRG | PV1;

// The tables of ADT^A40.
pub const ROWS: Rows<'static> = Rows {
    names: &NAMES,
    follow: &FOLLOW,
    last: LAST,
};
