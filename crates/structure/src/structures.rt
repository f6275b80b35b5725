// Which structure of document 01 the type of a message chooses, its tables, and the message judged by them. A type that
// is not listed chooses none.
ghost use Rattle.std.specs.Prelude.{◌≡◌};
ghost use Rattle.alphabet.specs.Bytes.{ascii};
ghost use Rattle.structure.specs.Structures.{choose, structure_for, built_in};
ghost use Rattle.structure.specs.Judged.{Structured};
ghost use Rattle.structure.specs.Engine.{listed_as, choice_of, RowsAre, RowsOf};

use crate::judging::judge_by;
use crate::rows::Rows;
use crate::{ack, adt_a01, adt_a02, adt_a40, oru_r01};
use alphabet::{Fault, Refusal};
use element::type_address;
use fault::FaultRecord;

// The structures that are listed.
#[derive(Clone, Copy)]
pub enum Structure {
    ObservationReport,
    Acknowledgement,
    Merge,
    Admission,
    Transfer,
    Cancel,
}

// The structure of an admission by its event.
fn admission_of(event: &[u8]) -> Option<Structure>
    ensures { choice_of result ≡ choose built_in (ascii "ADT") event.now }
{
    if alphabet::same(event, b"A40") {
        return Some(Structure::Merge);
    }
    if alphabet::same(event, b"A01") {
        return Some(Structure::Admission);
    }
    if alphabet::same(event, b"A02") {
        return Some(Structure::Transfer);
    }
    if alphabet::same(event, b"A12") {
        return Some(Structure::Cancel);
    }
    None
}

// The structure that the type of a message chooses.
fn structure_of(message: &[u8]) -> Option<Structure>
    ensures { choice_of result ≡ structure_for built_in message.now }
{
    let whole = element::raw(message, type_address(0));
    let separator = alphabet::byte_at(message, 4);
    let kind = element::part_in(whole, separator, 0);
    let event = element::part_in(whole, separator, 1);
    if alphabet::same(kind, b"ORU") & alphabet::same(event, b"R01") {
        return Some(Structure::ObservationReport);
    }
    if alphabet::same(kind, b"ACK") {
        return Some(Structure::Acknowledgement);
    }
    if alphabet::same(kind, b"ADT") {
        return admission_of(event);
    }
    None
}

// The tables of a structure.
fn rows_of(structure: Structure) -> Rows<'static>
    ensures { RowsAre (listed_as structure).shape result }
{
    match structure {
        Structure::ObservationReport => oru_r01::ROWS,
        Structure::Acknowledgement => ack::ROWS,
        Structure::Merge => adt_a40::ROWS,
        Structure::Admission => adt_a01::ROWS,
        Structure::Transfer => adt_a02::ROWS,
        Structure::Cancel => adt_a02::ROWS,
    }
}

// The tables of the structure that the type of a message chooses.
pub fn rows_for(message: &[u8]) -> Option<Rows<'static>>
    ensures { RowsOf (structure_for built_in message.now) result }
{
    structure_of(message).map(rows_of)
}

// Judges the structure of a message that was read: no reading fault is looked for.
pub fn judge_read(message: &[u8]) -> Result<(), FaultRecord>
    ensures { Structured message.now result }
{
    match rows_for(message) {
        Some(rows) => judge_by(message, rows),
        None => Err(FaultRecord::from(Fault {
            kind: Refusal::NoStructure,
            place: 0,
        })),
    }
}
