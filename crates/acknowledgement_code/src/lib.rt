// The code of an acknowledgement, two letters by which the sender knows what became of his message: whether he may
// delete his copy. It goes by the verdict, which tells the first fault in the judges' order.
#![tactic(auto)]

ghost use Rattle.std.specs.Prelude.{◌≡◌};
ghost use Rattle.alphabet.specs.Answers.{number_of};
ghost use Rattle.acknowledgement_code.specs.Codes.{rejects, code_of};

use alphabet::Refusal;
use fault::FaultRecord;

// What the letters say: AA, AE or AR. At an error the message is wrong; at a rejection it is of a kind that is not
// taken here.
#[derive(Clone, Copy)]
pub enum Code {
    Accept,
    Error,
    Reject,
}

// Whether a fault is a rejection: no structure for the type, or a processing ID or a version that is not in its list.
// Those are fields of MSH, which is segment 0.
#[tactic(auto, using(crate::proofs::KindLaws::others))]
fn is_rejected(fault: FaultRecord) -> bool
    ensures { result ≡ rejects (number_of fault.kind) fault.place fault.field }
{
    match fault.kind {
        Refusal::NoStructure => true,
        Refusal::NotListed => (fault.place == 0) & ((fault.field == 11) | (fault.field == 12)),
        _ => false,
    }
}

// The code by the verdict.
#[tactic(auto, unfolding(crate::specs::Codes::code_of))]
pub fn code_of(found: Result<(), FaultRecord>) -> Code
    ensures { result ≡ code_of found }
{
    match found {
        Ok(()) => Code::Accept,
        Err(fault) if is_rejected(fault) => Code::Reject,
        Err(_) => Code::Error,
    }
}
