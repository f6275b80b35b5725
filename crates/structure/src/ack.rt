// ACK as tables: MSH MSA [ERR]
use crate::rows::Rows;
use crate::segments;

// The places behind MSH, place 0: bit p is place p.
const MSA: u64 = 1 << 1;

const ERR: u64 = 1 << 2;

// The names, by place.
static NAMES: [u32; 3] = [segments::MSH, segments::MSA, segments::ERR];

// The places that can be filled next, by place.
static FOLLOW: [u64; 3] = [
    MSA, // behind MSH
    ERR, // behind MSA
    0, // behind ERR
];

// The places behind which a message can end.
const LAST: u64 = MSA | ERR;

// The tables of ACK.
pub const ROWS: Rows<'static> = Rows {
    names: &NAMES,
    follow: &FOLLOW,
    last: LAST,
};
