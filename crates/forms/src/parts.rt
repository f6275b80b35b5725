// The parts of a TM or a TS, each sought at the one place where it can stand: bytes whose parts stand elsewhere break
// their forms.
ghost use Rattle.std.specs.Prelude.{◌≡◌};
ghost use Rattle.forms.specs.Forms.{layout_of};
ghost use Rattle.forms.specs.Places.{sign_place, point_place, front_at, tail_at, zone_at};

use crate::layouts::{Form, to_seconds};

// How many bytes a zone has.
const ZONE: usize = 5;

// The digits in front, the tail from the point on, and the zone from the sign on.
#[derive(Clone, Copy)]
pub struct Parts<'a> {
    pub front: &'a [u8],
    pub tail: &'a [u8],
    pub zone: &'a [u8],
}

// The place of the sign before a zone, or the length where there is none.
// The length and no Option: the bytes are split there, and all stand in front where there is none.
fn sign_place(bytes: &[u8]) -> usize
    ensures { result ≡ sign_place bytes.now }
{
    let n = bytes.len();
    if n < ZONE {
        return n;
    }
    let place = n - ZONE;
    let b = bytes[place];
    let sign = (b == b'+') | (b == b'-');
    if sign { place } else { n }
}

// The place of the point behind the seconds, or the length where there is none.
// The length and no Option, for the same reason.
fn point_place(seconds: usize, body: &[u8]) -> usize
    ensures { result ≡ point_place seconds body.now }
{
    if body.len() <= seconds {
        return body.len();
    }
    if body[seconds] == b'.' {
        seconds
    } else {
        body.len()
    }
}

// The three parts.
pub fn parts_of(form: Form, bytes: &[u8]) -> Parts<'_>
    ensures front { result.front.now ≡ front_at form bytes.now }
    ensures tail { result.tail.now ≡ tail_at form bytes.now }
    ensures zone { result.zone.now ≡ zone_at bytes.now }
{
    let (body, zone) = bytes.split_at(sign_place(bytes));
    let (front, tail) = body.split_at(point_place(to_seconds(form), body));
    Parts { front, tail, zone }
}
