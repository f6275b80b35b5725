// ORU^R01 as tables:
// MSH { [PID [PD1] [{NK1}] [{NTE}] [PV1 [PV2]]] { [ORC] OBR [{NTE}] [{ [OBX] [{NTE}] }] [{CTI}] } } [DSC]
// The three places of NTE are told apart by what the note belongs to.
use crate::rows::Rows;
use crate::segments;

// The places behind MSH, place 0: bit p is place p.
const PID: u64 = 1 << 1;

const PD1: u64 = 1 << 2;

const NK1: u64 = 1 << 3;

const PATIENT_NTE: u64 = 1 << 4;

const PV1: u64 = 1 << 5;

const PV2: u64 = 1 << 6;

const ORC: u64 = 1 << 7;

const OBR: u64 = 1 << 8;

const ORDER_NTE: u64 = 1 << 9;

const OBX: u64 = 1 << 10;

const RESULT_NTE: u64 = 1 << 11;

const CTI: u64 = 1 << 12;

const DSC: u64 = 1 << 13;

// The names, by place.
static NAMES: [u32; 14] = [
    segments::MSH,
    segments::PID,
    segments::PD1,
    segments::NK1,
    segments::NTE,
    segments::PV1,
    segments::PV2,
    segments::ORC,
    segments::OBR,
    segments::NTE,
    segments::OBX,
    segments::NTE,
    segments::CTI,
    segments::DSC,
];

// The places that can be filled next, by place.
static FOLLOW: [u64; 14] = [
    PID | ORC | OBR, // behind MSH
    PD1 | NK1 | PATIENT_NTE | PV1 | ORC | OBR, // behind PID
    NK1 | PATIENT_NTE | PV1 | ORC | OBR, // behind PD1
    NK1 | PATIENT_NTE | PV1 | ORC | OBR, // behind NK1
    PATIENT_NTE | PV1 | ORC | OBR, // behind PATIENT_NTE
    PV2 | ORC | OBR, // behind PV1
    ORC | OBR, // behind PV2
    OBR, // behind ORC
    ORDER_NTE | OBX | RESULT_NTE | CTI | ORC | OBR | PID | DSC, // behind OBR
    ORDER_NTE | OBX | RESULT_NTE | CTI | ORC | OBR | PID | DSC, // behind ORDER_NTE
    OBX | RESULT_NTE | CTI | ORC | OBR | PID | DSC, // behind OBX
    OBX | RESULT_NTE | CTI | ORC | OBR | PID | DSC, // behind RESULT_NTE
    CTI | ORC | OBR | PID | DSC, // behind CTI
    0, // behind DSC
];

// The places behind which a message can end.
const LAST: u64 = OBR | ORDER_NTE | OBX | RESULT_NTE | CTI | DSC;

// The tables of ORU^R01.
pub const ROWS: Rows<'static> = Rows {
    names: &NAMES,
    follow: &FOLLOW,
    last: LAST,
};
