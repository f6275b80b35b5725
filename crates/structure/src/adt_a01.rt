// ADT^A01 as tables: MSH EVN PID [{NK1}] PV1 [PV2] [{AL1}] [{IN1}] [ZVI] [ZPD]
use crate::rows::Rows;
use crate::segments;

// The places behind MSH, place 0: bit p is place p.
const EVN: u64 = 1 << 1;

const PID: u64 = 1 << 2;

const NK1: u64 = 1 << 3;

const PV1: u64 = 1 << 4;

const PV2: u64 = 1 << 5;

const AL1: u64 = 1 << 6;

const IN1: u64 = 1 << 7;

const ZVI: u64 = 1 << 8;

const ZPD: u64 = 1 << 9;

// The names, by place.
static NAMES: [u32; 10] = [
    segments::MSH,
    segments::EVN,
    segments::PID,
    segments::NK1,
    segments::PV1,
    segments::PV2,
    segments::AL1,
    segments::IN1,
    segments::ZVI,
    segments::ZPD,
];

// The places that can be filled next, by place.
static FOLLOW: [u64; 10] = [
    EVN, // behind MSH
    PID, // behind EVN
    NK1 | PV1, // behind PID
    NK1 | PV1, // behind NK1
    PV2 | AL1 | IN1 | ZVI | ZPD, // behind PV1
    AL1 | IN1 | ZVI | ZPD, // behind PV2
    AL1 | IN1 | ZVI | ZPD, // behind AL1
    IN1 | ZVI | ZPD, // behind IN1
    ZPD, // behind ZVI
    0, // behind ZPD
];

// The places behind which a message can end.
const LAST: u64 = PV1 | PV2 | AL1 | IN1 | ZVI | ZPD;

// The tables of ADT^A01.
pub const ROWS: Rows<'static> = Rows {
    names: &NAMES,
    follow: &FOLLOW,
    last: LAST,
};
