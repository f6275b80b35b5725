// A number or a time asked of an element of a message. An element that is not present gives its state alone: an empty
// box is not a zero.
ghost use Rattle.std.specs.Prelude.{◌≡◌, MatchResult, Err};
ghost use Rattle.std.specs.Fn.{FnReturnsAt};
ghost use Rattle.element.specs.Finding.{found, bytes_at};
ghost use Rattle.value.specs.Asked.{value_at, fault_of, nm_found, si_found, dt_found, tm_found, ts_found};
ghost use Rattle.value.specs.declared.asked.NoValue.TheVariants.{NotFound, NotSaid};

use alphabet::{Fault, Refusal};
use calendar::Time;
use element::{Address, State};
use numbers::Number;

// An element's state and, where it is present, its value.
#[derive(Clone, Copy)]
pub enum Value<T> {
    Absent,
    Empty,
    Null,
    Present(T),
}

// Why there is no answer: the element was not found, or it is present and its bytes say no such value.
#[derive(Clone, Copy)]
pub enum NoValue {
    NotFound(Fault),
    NotSaid(Refusal),
}

impl From<Fault> for NoValue {
    ghost from_gives = { λ fault r. r ≡ NotFound fault };

    fn from(fault: Fault) -> NoValue {
        NoValue::NotFound(fault)
    }
}

impl From<Refusal> for NoValue {
    ghost from_gives = { λ kind r. r ≡ NotSaid kind };

    fn from(kind: Refusal) -> NoValue {
        NoValue::NotSaid(kind)
    }
}

// A refusal with its place. What an element's bytes do not say is refused at 0.
impl From<NoValue> for Fault {
    ghost from_gives = { λ why r. r ≡ fault_of why };

    fn from(why: NoValue) -> Fault {
        match why {
            NoValue::NotFound(fault) => fault,
            NoValue::NotSaid(kind) => Fault { kind, place: 0 },
        }
    }
}

// The answer of an element in that state, whose bytes say what was read of them.
fn value_at<T: Copy>(state: State, read: Result<T, Refusal>) -> Result<Value<T>, NoValue>
    ensures { result ≡ value_at state read }
{
    match state {
        State::Absent => Ok(Value::Absent),
        State::Empty => Ok(Value::Empty),
        State::Null => Ok(Value::Null),
        State::Present => Ok(Value::Present(read?)),
    }
}

// The answer of the element at an address, whose bytes are read as `read` reads them.
fn asked<T: Copy, F: Fn(&[u8]) -> Result<T, Refusal>>(
    message: &[u8],
    address: Address,
    read: F,
) -> Result<Value<T>, NoValue>
    requires { F.IsAlwaysCallable read }
    ensures { MatchResult (found message.now address)
        (λ e. (said : _) × FnReturnsAt F.Fn read (bytes_at message.now e) said × (result ≡ value_at e.state said))
        (λ fault. result ≡ Err (NotFound fault)) }
{
    let element = element::find(message, address)?;
    value_at(element.state, read(element::bytes_at(message, element)))
}

pub fn nm(message: &[u8], address: Address) -> Result<Value<Number>, NoValue>
    ensures { result ≡ nm_found message.now address }
{
    asked(message, address, |bytes| numbers::read_nm(bytes))
}

pub fn si(message: &[u8], address: Address) -> Result<Value<Number>, NoValue>
    ensures { result ≡ si_found message.now address }
{
    asked(message, address, |bytes| numbers::read_si(bytes))
}

pub fn dt(message: &[u8], address: Address) -> Result<Value<Time>, NoValue>
    ensures { result ≡ dt_found message.now address }
{
    asked(message, address, |bytes| times::read_dt(bytes))
}

pub fn tm(message: &[u8], address: Address) -> Result<Value<Time>, NoValue>
    ensures { result ≡ tm_found message.now address }
{
    asked(message, address, |bytes| times::read_tm(bytes))
}

pub fn ts(message: &[u8], address: Address) -> Result<Value<Time>, NoValue>
    ensures { result ≡ ts_found message.now address }
{
    asked(message, address, |bytes| times::read_ts(bytes))
}
