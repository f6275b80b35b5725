// Why a message cannot be acknowledged, number 9: which of its reasons it was. There is one exactly where the library
// refuses.
ghost use Rattle.std.specs.Prelude.{◌≡◌};
ghost use Rattle.acknowledgement.specs.Acknowledgement.{header as taken, sent, present, acknowledgeable};
ghost use Rattle.acknowledging.specs.Reasons.{is_none, answerable};

use alphabet::{CARRIAGE_RETURN, Fault};
use element::Address;
use terminal::Output;

// The header has no end, has a fault of its own, says that this is an acknowledgement, or has no control ID or one that
// is too long.
#[derive(Clone, Copy)]
pub enum Reason {
    NoEnd,
    Opening(Fault),
    Acknowledgement,
    NoId,
    LongId,
}

// The header: the bytes through the first CR.
fn header_of(message: &[u8]) -> &[u8]
    ensures { result.now ≡ taken message.now }
{
    let end = alphabet::find(message, CARRIAGE_RETURN);
    if end < message.len() {
        let behind = end + 1;
        return &message[..behind];
    }
    message
}

// The control ID of a header: MSH-10, the whole field.
fn control_id(header: &[u8]) -> &[u8]
    ensures { result.now ≡ sent header.now 10 }
{
    let address = Address {
        segment: 0,
        field: 10,
        repetition: 0,
        component: 0,
        subcomponent: 0,
    };
    element::raw(header, address)
}

// Whether bytes of a header are present.
fn is_present(header: &[u8], bytes: &[u8]) -> bool
    ensures { result ≡ present header.now bytes.now }
{
    let delimiters = reading::delimiters_of(header);
    element::is_present(element::state_of(delimiters, bytes))
}

// The reason in a header that has an end and no fault of its own.
fn reason_in(header: &[u8]) -> Option<Reason>
    ensures { is_none result ≡ answerable header.now }
{
    let kind = element::raw(header, element::type_address(1));
    let id = control_id(header);
    let is_acknowledgement = alphabet::same(kind, b"ACK");
    let has_id = is_present(header, id);
    let is_short = id.len() <= alphabet::id_limit();
    if is_acknowledgement {
        return Some(Reason::Acknowledgement);
    }
    if !has_id {
        return Some(Reason::NoId);
    }
    if !is_short {
        return Some(Reason::LongId);
    }
    None
}

// The reason why a message cannot be acknowledged.
fn reason_of(message: &[u8]) -> Option<Reason>
    ensures { is_none result ≡ acknowledgeable message.now }
{
    let end = alphabet::find(message, CARRIAGE_RETURN);
    if message.len() <= end {
        return Some(Reason::NoEnd);
    }
    let header = header_of(message);
    let opening = reading::check_opening(header);
    match opening {
        Ok(()) => reason_in(header),
        Err(fault) => Some(Reason::Opening(fault)),
    }
}

// A hint for a header that has a fault of its own, or has no end.
fn print_hint(out: &mut Output, message: &[u8]) {
    if let Err(fault) = reading::check_opening(header_of(message)) {
        hints::print_hint(out, message, fault);
    }
}

// Says that the header is refused, and by which byte.
fn print_opening(out: &mut Output, fault: Fault) {
    wording::print_numbered(out, b"  its header is refused", fault.kind);
    out.print_counted(b" (byte ", fault.place, b")");
    out.end_line();
}

// Says that the control ID is too long, and how long it may be.
fn print_long(out: &mut Output, length: usize) {
    out.print_counted(
        b"  its control ID (MSH-10) has ",
        length,
        b" bytes, and may have ",
    );
    out.print_number(alphabet::id_limit());
    out.end_line();
}

// Says that the header has no end.
fn print_no_end(out: &mut Output, message: &[u8]) {
    out.print_line(if message.is_empty() {
        b"  this file has no bytes"
    } else {
        b"  its header has no end: there is no CR"
    });
}

// Says why a message cannot be acknowledged.
pub fn print_reason(out: &mut Output, message: &[u8]) {
    match reason_of(message) {
        None => {}
        Some(Reason::NoEnd) => {
            print_no_end(out, message);
            print_hint(out, message);
        }
        Some(Reason::Opening(fault)) => {
            print_opening(out, fault);
            hints::print_hint(out, message, fault);
        }
        Some(Reason::Acknowledgement) => out.print_line(
            b"  it is an acknowledgement itself (MSH-9 says ACK), and these are not answered",
        ),
        Some(Reason::NoId) => {
            out.print_line(b"  it has no control ID: MSH-10 is absent, empty or null");
        }
        Some(Reason::LongId) => print_long(out, control_id(header_of(message)).len()),
    }
}
