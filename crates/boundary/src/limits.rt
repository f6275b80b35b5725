// What a program can ask of the library itself: which version it is, and its limits. The header says the same in
// macros.
ghost use Rattle.std.specs.Prelude.{◌≡◌};
ghost use Rattle.alphabet.specs.Limits.{message_limit, segment_limit, id_limit};
ghost use Rattle.boundary.specs.Version.{version};

// 0.1.0: two decimal digits for each part.
const VERSION: u32 = 100;

// The version of the library, as one number.
#[unsafe(no_mangle)]
pub extern "C" fn turrethog_version() -> u32
    ensures { result ≡ version 0 1 0 }
{
    VERSION
}

// The most bytes that a message may have.
#[unsafe(no_mangle)]
pub extern "C" fn turrethog_message_limit() -> usize
    ensures { result ≡ message_limit }
{
    alphabet::message_limit()
}

// The most segments that a message may have.
#[unsafe(no_mangle)]
pub extern "C" fn turrethog_segment_limit() -> usize
    ensures { result ≡ segment_limit }
{
    alphabet::segment_limit()
}

// The most bytes that a control ID may have.
#[unsafe(no_mangle)]
pub extern "C" fn turrethog_id_limit() -> usize
    ensures { result ≡ id_limit }
{
    alphabet::id_limit()
}
