// An element of a message by its address, and the number or the time that it says. A state is 0 absent, 1 empty, 2
// null, 3 present; an element that is not present has no number: an empty box is not a zero.
ghost use Rattle.std.specs.Prelude.{◌≡◌};
ghost use Rattle.element.specs.Finding.{found};
ghost use Rattle.value.specs.Asked.{nm_found, si_found, dt_found, tm_found, ts_found};
ghost use Rattle.seen.specs.Seen.{element_seen, number_seen, time_seen, address_of};

use seen::{CElement, CNumber, CTime};

// Finds an element.
#[unsafe(no_mangle)]
pub extern "C" fn turrethog_find(
    message: &[u8],
    segment: usize,
    field: usize,
    repetition: usize,
    component: usize,
    subcomponent: usize,
) -> CElement
    ensures { result ≡ element_seen
        (found message.now (address_of segment field repetition component subcomponent)) }
{
    boundary::turrethog_find(message, segment, field, repetition, component, subcomponent)
}

// The number (NM) that an element says.
#[unsafe(no_mangle)]
pub extern "C" fn turrethog_nm(
    message: &[u8],
    segment: usize,
    field: usize,
    repetition: usize,
    component: usize,
    subcomponent: usize,
) -> CNumber
    ensures { result ≡ number_seen
        (nm_found message.now (address_of segment field repetition component subcomponent)) }
{
    boundary::turrethog_nm(message, segment, field, repetition, component, subcomponent)
}

// The sequence number (SI) that an element says.
#[unsafe(no_mangle)]
pub extern "C" fn turrethog_si(
    message: &[u8],
    segment: usize,
    field: usize,
    repetition: usize,
    component: usize,
    subcomponent: usize,
) -> CNumber
    ensures { result ≡ number_seen
        (si_found message.now (address_of segment field repetition component subcomponent)) }
{
    boundary::turrethog_si(message, segment, field, repetition, component, subcomponent)
}

// The date (DT) that an element says.
#[unsafe(no_mangle)]
pub extern "C" fn turrethog_dt(
    message: &[u8],
    segment: usize,
    field: usize,
    repetition: usize,
    component: usize,
    subcomponent: usize,
) -> CTime
    ensures { result ≡ time_seen
        (dt_found message.now (address_of segment field repetition component subcomponent)) }
{
    boundary::turrethog_dt(message, segment, field, repetition, component, subcomponent)
}

// The time of day (TM) that an element says.
#[unsafe(no_mangle)]
pub extern "C" fn turrethog_tm(
    message: &[u8],
    segment: usize,
    field: usize,
    repetition: usize,
    component: usize,
    subcomponent: usize,
) -> CTime
    ensures { result ≡ time_seen
        (tm_found message.now (address_of segment field repetition component subcomponent)) }
{
    boundary::turrethog_tm(message, segment, field, repetition, component, subcomponent)
}

// The time stamp (TS) that an element says.
#[unsafe(no_mangle)]
pub extern "C" fn turrethog_ts(
    message: &[u8],
    segment: usize,
    field: usize,
    repetition: usize,
    component: usize,
    subcomponent: usize,
) -> CTime
    ensures { result ≡ time_seen
        (ts_found message.now (address_of segment field repetition component subcomponent)) }
{
    boundary::turrethog_ts(message, segment, field, repetition, component, subcomponent)
}
