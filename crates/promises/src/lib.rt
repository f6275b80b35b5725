// The three demands of the mission as theorems, each proved from the definitions that the public contracts cite;
// docs/PROMISES.md leads from each sentence to its theorem. Two of its sentences are about slices, whose elements are
// bytes by their type and not by a premise: these stand here as the contracts of functions that do what a caller does.
#![tactic(auto)]

ghost use Rattle.std.specs.Prelude.{◌≡◌, ℕ, length, take, Ok};
ghost use Rattle.escaping.specs.Outcomes.{escaping, answer, filled};
ghost use Rattle.text.specs.Unescape.{unescaping};
ghost use Rattle.acknowledgement.specs.Acknowledgement.{Acknowledges};
ghost use Rattle.boundary.specs.Seen.{AcknowledgeSeen};
ghost use Rattle.promises.specs.Texts.{left, ComesBack};
ghost use Rattle.promises.specs.Acknowledgements.{Carries};

use alphabet::{Delimiters, Fault};
use boundary::CAnswer;

// "Text of any bytes, escaped and then unescaped under the same permitted delimiters, comes back the same where both
// buffers have room."
pub fn write_and_read(
    delimiters: Delimiters,
    text: &[u8],
    written: &mut [u8],
    back: &mut [u8],
) -> Result<usize, Fault>
    ensures value { result ≡ answer
        (unescaping delimiters.bytes (left delimiters.bytes text.now written.old)
        (length back.old)) }
    ensures written_after { written.new
        ≡ filled (escaping delimiters.bytes text.now (length written.old))
        written.old }
    ensures back_after { back.new
        ≡ filled (unescaping delimiters.bytes (left delimiters.bytes text.now written.old)
        (length back.old)) back.old }
    ensures comes_back { ComesBack delimiters.bytes text.now (length written.old)
        back.old result back.new }
{
    // A refusal wrote nothing.
    let length = escaping::escape(delimiters, text, written).unwrap_or(0);
    text::unescape(delimiters, &written[..length], back)
}

// "Every acknowledgement written reads back through our reader, fits the ACK structure and carries the sender's own
// control ID."
pub fn acknowledge<'a>(
    message: &'a [u8],
    time: &'a [u8],
    id: &[u8],
    buffer: &mut [u8],
) -> Result<usize, Fault>
    ensures acknowledges { Acknowledges message.now time.now id.now buffer.old result
        buffer.new }
    ensures carries { (n : ℕ) → result ≡ Ok n
        → Carries message.now time.now id.now
        (take n buffer.new) }
{
    acknowledgement::acknowledge(message, time, id, buffer)
}

// The same of what C is handed: 0 is an acknowledgement, and any other number leaves the buffer as it was.
pub fn acknowledge_for_c<'a>(
    message: &'a [u8],
    time: &'a [u8],
    id: &[u8],
    buffer: &mut [u8],
) -> CAnswer
    ensures acknowledge_seen { AcknowledgeSeen message.now time.now id.now
        buffer.old result buffer.new }
    ensures carries { result.number ≡ 0
        → Carries message.now time.now id.now
        (take result.length buffer.new) }
    ensures buffer_unchanged { (result.number ≡ 0 → ⊥) → buffer.new ≡ buffer.old }
{
    boundary::turrethog_acknowledge(message, time, id, buffer)
}
