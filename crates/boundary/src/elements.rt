// An element of a message by its address, and the number or the time that it says. A state is 0 absent, 1 empty, 2
// null, 3 present; an element that is not present has no number: an empty box is not a zero. The C interface has the
// five numbers of an address one by one.
ghost use Rattle.std.specs.Prelude.{◌≡◌};
ghost use Rattle.element.specs.Finding.{found};
ghost use Rattle.value.specs.Asked.{nm_found, si_found, dt_found, tm_found, ts_found};
ghost use Rattle.seen.specs.Seen.{element_seen, number_seen, time_seen, address_of};

use seen::{CElement, CNumber, CTime};

// Finds an element.
#[unsafe(no_mangle)]
pub extern "C" fn turrethog_find(
    message: &[u8],
    segment: usize,
    field: usize,
    repetition: usize,
    component: usize,
    subcomponent: usize,
) -> CElement
    ensures { result ≡ element_seen
        (found message.now (address_of segment field repetition component subcomponent)) }
{
    let address = seen::address_of(segment, field, repetition, component, subcomponent);
    CElement::from(element::find(message, address))
}

// The number (NM) that an element says.
#[unsafe(no_mangle)]
pub extern "C" fn turrethog_nm(
    message: &[u8],
    segment: usize,
    field: usize,
    repetition: usize,
    component: usize,
    subcomponent: usize,
) -> CNumber
    ensures { result ≡ number_seen
        (nm_found message.now (address_of segment field repetition component subcomponent)) }
{
    let address = seen::address_of(segment, field, repetition, component, subcomponent);
    CNumber::from(value::nm(message, address))
}

// The sequence number (SI) that an element says.
#[unsafe(no_mangle)]
pub extern "C" fn turrethog_si(
    message: &[u8],
    segment: usize,
    field: usize,
    repetition: usize,
    component: usize,
    subcomponent: usize,
) -> CNumber
    ensures { result ≡ number_seen
        (si_found message.now (address_of segment field repetition component subcomponent)) }
{
    let address = seen::address_of(segment, field, repetition, component, subcomponent);
    CNumber::from(value::si(message, address))
}

// The date (DT) that an element says.
#[unsafe(no_mangle)]
pub extern "C" fn turrethog_dt(
    message: &[u8],
    segment: usize,
    field: usize,
    repetition: usize,
    component: usize,
    subcomponent: usize,
) -> CTime
    ensures { result ≡ time_seen
        (dt_found message.now (address_of segment field repetition component subcomponent)) }
{
    let address = seen::address_of(segment, field, repetition, component, subcomponent);
    CTime::from(value::dt(message, address))
}

// The time of day (TM) that an element says.
#[unsafe(no_mangle)]
pub extern "C" fn turrethog_tm(
    message: &[u8],
    segment: usize,
    field: usize,
    repetition: usize,
    component: usize,
    subcomponent: usize,
) -> CTime
    ensures { result ≡ time_seen
        (tm_found message.now (address_of segment field repetition component subcomponent)) }
{
    let address = seen::address_of(segment, field, repetition, component, subcomponent);
    CTime::from(value::tm(message, address))
}

// The time stamp (TS) that an element says.
#[unsafe(no_mangle)]
pub extern "C" fn turrethog_ts(
    message: &[u8],
    segment: usize,
    field: usize,
    repetition: usize,
    component: usize,
    subcomponent: usize,
) -> CTime
    ensures { result ≡ time_seen
        (ts_found message.now (address_of segment field repetition component subcomponent)) }
{
    let address = seen::address_of(segment, field, repetition, component, subcomponent);
    CTime::from(value::ts(message, address))
}
