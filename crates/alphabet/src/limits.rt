// The limits, once for the whole library. Code asks these functions and proofs cite their names, so a new figure
// changes this file and specs/Limits.antt, and of the rest only what is said to people and to C.
ghost use Rattle.std.specs.Prelude.{◌≡◌};
ghost use Rattle.alphabet.specs.Limits.{message_limit, segment_limit, id_limit};

const MESSAGE: usize = 1_048_576;

const SEGMENTS: usize = 4096;

const ID: usize = 199;

// The most bytes that a message may have.
pub fn message_limit() -> usize
    ensures { result ≡ message_limit }
{
    MESSAGE
}

// The most segments that a message may have.
pub fn segment_limit() -> usize
    ensures { result ≡ segment_limit }
{
    SEGMENTS
}

// The most bytes that a control ID may have.
pub fn id_limit() -> usize
    ensures { result ≡ id_limit }
{
    ID
}
