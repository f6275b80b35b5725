// What writes into a lent buffer: text escaped, unescaped and laid out in lines, and the acknowledgement. A refusal
// writes nothing. The C interface has the five delimiters one by one.
ghost use Rattle.std.specs.Prelude.{◌≡◌, [], ◌∷◌, length};
ghost use Rattle.escaping.specs.Outcomes.{escaping, answer, filled};
ghost use Rattle.text.specs.Unescape.{unescaping};
ghost use Rattle.formatting.specs.Formatting.{formatting};
ghost use Rattle.boundary.specs.Seen.{seen, AcknowledgeSeen};

use crate::answers::CAnswer;
use alphabet::Delimiters;

// Escapes a text, under the five delimiters in the message's order.
#[unsafe(no_mangle)]
pub extern "C" fn turrethog_escape(
    field: u8,
    component: u8,
    repetition: u8,
    escape: u8,
    subcomponent: u8,
    text: &[u8],
    buffer: &mut [u8],
) -> CAnswer
    ensures value { result ≡ seen
        (answer (escaping (field ∷ component ∷ repetition ∷ escape ∷ subcomponent ∷ []) text.now
        (length buffer.old))) }
    ensures buffer_after { buffer.new
        ≡ filled (escaping (field ∷ component ∷ repetition ∷ escape ∷ subcomponent ∷ []) text.now
        (length buffer.old)) buffer.old }
{
    let delimiters = Delimiters {
        bytes: [field, component, repetition, escape, subcomponent],
    };
    CAnswer::from(escaping::escape(delimiters, text, buffer))
}

// Unescapes a text, under the five delimiters in the message's order.
#[unsafe(no_mangle)]
pub extern "C" fn turrethog_unescape(
    field: u8,
    component: u8,
    repetition: u8,
    escape: u8,
    subcomponent: u8,
    text: &[u8],
    buffer: &mut [u8],
) -> CAnswer
    ensures value { result ≡ seen
        (answer (unescaping (field ∷ component ∷ repetition ∷ escape ∷ subcomponent ∷ []) text.now
        (length buffer.old))) }
    ensures buffer_after { buffer.new
        ≡ filled (unescaping (field ∷ component ∷ repetition ∷ escape ∷ subcomponent ∷ []) text.now
        (length buffer.old)) buffer.old }
{
    let delimiters = Delimiters {
        bytes: [field, component, repetition, escape, subcomponent],
    };
    CAnswer::from(text::unescape(delimiters, text, buffer))
}

// Lays out the lines of a formatted text (FT), under the five delimiters in the message's order.
#[unsafe(no_mangle)]
pub extern "C" fn turrethog_format(
    field: u8,
    component: u8,
    repetition: u8,
    escape: u8,
    subcomponent: u8,
    text: &[u8],
    buffer: &mut [u8],
) -> CAnswer
    ensures value { result ≡ seen
        (answer (formatting (field ∷ component ∷ repetition ∷ escape ∷ subcomponent ∷ []) text.now
        (length buffer.old))) }
    ensures buffer_after { buffer.new
        ≡ filled (formatting (field ∷ component ∷ repetition ∷ escape ∷ subcomponent ∷ []) text.now
        (length buffer.old)) buffer.old }
{
    let delimiters = Delimiters {
        bytes: [field, component, repetition, escape, subcomponent],
    };
    CAnswer::from(formatting::format(delimiters, text, buffer))
}

// Acknowledges a message, with the caller's time and ID.
#[unsafe(no_mangle)]
pub extern "C" fn turrethog_acknowledge<'a>(
    message: &'a [u8],
    time: &'a [u8],
    id: &[u8],
    buffer: &mut [u8],
) -> CAnswer
    ensures { AcknowledgeSeen message.now time.now id.now
        buffer.old result buffer.new }
{
    CAnswer::from(acknowledgement::acknowledge(message, time, id, buffer))
}
