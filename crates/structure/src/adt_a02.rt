// ADT^A02 and A12 as tables: MSH EVN PID PV1 [PV2] [ZVI] [ZPD]
use crate::rows::Rows;
use crate::segments;

// The places behind MSH, place 0: bit p is place p.
const EVN: u64 = 1 << 1;

const PID: u64 = 1 << 2;

const PV1: u64 = 1 << 3;

const PV2: u64 = 1 << 4;

const ZVI: u64 = 1 << 5;

const ZPD: u64 = 1 << 6;

// The names, by place.
static NAMES: [u32; 7] = [
    segments::MSH,
    segments::EVN,
    segments::PID,
    segments::PV1,
    segments::PV2,
    segments::ZVI,
    segments::ZPD,
];

// The places that can be filled next, by place.
static FOLLOW: [u64; 7] = [
    EVN, // behind MSH
    PID, // behind EVN
    PV1, // behind PID
    PV2 | ZVI | ZPD, // behind PV1
    ZVI | ZPD, // behind PV2
    ZPD, // behind ZVI
    0, // behind ZPD
];

// The places behind which a message can end.
const LAST: u64 = PV1 | PV2 | ZVI | ZPD;

// The tables of ADT^A02 and A12.
pub const ROWS: Rows<'static> = Rows {
    names: &NAMES,
    follow: &FOLLOW,
    last: LAST,
};
