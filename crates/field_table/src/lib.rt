// The table of document 01, 'Fields judged', as data: its rows, and the lists of values that they name. The judge takes
// the rows one by one, and knows nothing of what stands in them.
#![tactic(auto)]

ghost use Rattle.std.specs.Prelude.{◌≡◌, ◌<◌, get_or};
ghost use Rattle.field_table.specs.Table.{values_of, member, rows, no_row};
ghost use Rattle.field_table.specs.declared.Values.TheVariants.{ValueTypes, Codes};
ghost use Rattle.field_table.specs.Codes.{singles, CodeOf};

// The lists: MSH-11, MSH-12, PID-8, OBX-2, OBX-11 and MSA-1.
#[derive(Clone, Copy)]
pub enum Values {
    Processing,
    Version,
    Sex,
    ValueTypes,
    Statuses,
    Codes,
}

// What it is judged by: a form, a list, or what another field of the segment says.
#[derive(Clone, Copy)]
pub enum Kind {
    Any,
    Identifier,
    Ts,
    Si,
    Nm,
    Dt,
    Tm,
    OneOf(Values),
    AsField(usize),
}

// The segment's name is its three bytes as one number, the first highest. Of each repetition a row judges a component,
// counted from 1, or the whole, which is 0.
// 0 and no Option, as an address has it: specs/Table.antt says `whole` of it.
#[derive(Clone, Copy)]
pub struct Row {
    pub segment: u32,
    pub field: usize,
    pub component: usize,
    pub kind: Kind,
    pub required: bool,
    pub repeats: bool,
}

// The names of the segments that have rows.
pub const MSH: u32 = 0x4D5348;

const PID: u32 = 0x504944;

const OBR: u32 = 0x4F4252;

const OBX: u32 = 0x4F4258;

const MSA: u32 = 0x4D5341;

// The component of a row that judges whole repetitions.
const WHOLE: usize = 0;

// How many rows there are.
pub const COUNT: usize = 16;

// The table. A static, so that it stands in the program once and is written down for no segment.
pub static ROWS: [Row; COUNT] = [
    Row {
        segment: MSH,
        field: 7,
        component: 1,
        kind: Kind::Ts,
        required: true,
        repeats: false,
    },
    Row {
        segment: MSH,
        field: 10,
        component: WHOLE,
        kind: Kind::Identifier,
        required: true,
        repeats: false,
    },
    Row {
        segment: MSH,
        field: 11,
        component: 1,
        kind: Kind::OneOf(Values::Processing),
        required: true,
        repeats: false,
    },
    Row {
        segment: MSH,
        field: 12,
        component: 1,
        kind: Kind::OneOf(Values::Version),
        required: true,
        repeats: false,
    },
    Row {
        segment: PID,
        field: 3,
        component: WHOLE,
        kind: Kind::Any,
        required: true,
        repeats: true,
    },
    Row {
        segment: PID,
        field: 5,
        component: WHOLE,
        kind: Kind::Any,
        required: true,
        repeats: true,
    },
    Row {
        segment: PID,
        field: 7,
        component: 1,
        kind: Kind::Ts,
        required: false,
        repeats: false,
    },
    Row {
        segment: PID,
        field: 8,
        component: WHOLE,
        kind: Kind::OneOf(Values::Sex),
        required: false,
        repeats: false,
    },
    Row {
        segment: OBR,
        field: 1,
        component: WHOLE,
        kind: Kind::Si,
        required: false,
        repeats: false,
    },
    Row {
        segment: OBX,
        field: 1,
        component: WHOLE,
        kind: Kind::Si,
        required: false,
        repeats: false,
    },
    Row {
        segment: OBX,
        field: 2,
        component: WHOLE,
        kind: Kind::OneOf(Values::ValueTypes),
        required: false,
        repeats: false,
    },
    Row {
        segment: OBX,
        field: 3,
        component: WHOLE,
        kind: Kind::Any,
        required: true,
        repeats: false,
    },
    Row {
        segment: OBX,
        field: 5,
        component: WHOLE,
        kind: Kind::AsField(2),
        required: false,
        repeats: true,
    },
    Row {
        segment: OBX,
        field: 11,
        component: WHOLE,
        kind: Kind::OneOf(Values::Statuses),
        required: true,
        repeats: false,
    },
    Row {
        segment: OBX,
        field: 14,
        component: 1,
        kind: Kind::Ts,
        required: false,
        repeats: false,
    },
    Row {
        segment: MSA,
        field: 1,
        component: WHOLE,
        kind: Kind::OneOf(Values::Codes),
        required: true,
        repeats: false,
    },
];

// The row of an index, from 0.
#[tactic(auto, unfolding(crate::specs::Table::rows))]
pub fn row_at(index: usize) -> Row
    requires { index < 16 }
    ensures { result ≡ get_or rows index no_row }
{
    ROWS[index]
}

// The codes of OBX-2 and of MSA-1: two letters as one number, the first higher.
const CE: u32 = 0x4345;

const DT: u32 = 0x4454;

const ED: u32 = 0x4544;

const FT: u32 = 0x4654;

const NM: u32 = 0x4E4D;

const RP: u32 = 0x5250;

const SN: u32 = 0x534E;

const ST: u32 = 0x5354;

const TM: u32 = 0x544D;

const TS: u32 = 0x5453;

const TX: u32 = 0x5458;

const AA: u32 = 0x4141;

const AE: u32 = 0x4145;

const AR: u32 = 0x4152;

// Whether bytes are one of some letters.
fn is_letter_of(bytes: &[u8], letters: &[u8]) -> bool
    ensures { result ≡ member bytes.now (singles letters.now) }
{
    if bytes.len() != 1 {
        return false;
    }
    alphabet::find(letters, bytes[0]) < letters.len()
}

// A byte as a wider number.
fn wide(byte: u8) -> u32
    ensures { (result ≡ byte) × (result < 256) }
{
    byte as u32
}

// Two bytes as such a number. Bytes that are not two have the number 0, which no code has.
fn code_of(bytes: &[u8]) -> u32
    ensures { CodeOf result bytes.now }
{
    if bytes.len() != 2 {
        return 0;
    }
    let first = wide(bytes[0]);
    let second = wide(bytes[1]);
    first * 256 + second
}

fn is_value_type(bytes: &[u8]) -> bool
    ensures { result ≡ member bytes.now (values_of ValueTypes) }
{
    let code = code_of(bytes);
    (code == CE)
        | ((code == DT)
            | ((code == ED)
                | ((code == FT)
                    | ((code == NM)
                        | ((code == RP)
                            | ((code == SN)
                                | ((code == ST)
                                    | ((code == TM) | ((code == TS) | (code == TX))))))))))
}

fn is_code(bytes: &[u8]) -> bool
    ensures { result ≡ member bytes.now (values_of Codes) }
{
    let code = code_of(bytes);
    (code == AA) | ((code == AE) | (code == AR))
}

// Whether bytes are in a list.
pub fn is_listed(bytes: &[u8], values: Values) -> bool
    ensures { result ≡ member bytes.now (values_of values) }
{
    match values {
        Values::Processing => is_letter_of(bytes, b"DPT"),
        Values::Version => alphabet::same(bytes, b"2.4"),
        Values::Sex => is_letter_of(bytes, b"MFOU"),
        Values::ValueTypes => is_value_type(bytes),
        Values::Statuses => is_letter_of(bytes, b"CDFINOPRSUWX"),
        Values::Codes => is_code(bytes),
    }
}
