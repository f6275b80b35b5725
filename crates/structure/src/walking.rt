// The walk over a message's segments by the tables of a structure. What is known is a set of places, those that could
// be filled next, as the bits of one number, and whether the message could end; each segment name steps it.
ghost use Rattle.std.specs.Prelude.{◌≡◌, List, [], ◌∷◌, ℕ, ◌+◌};
ghost use Rattle.structure.specs.SegmentNames.{segment_names};
ghost use Rattle.structure.specs.Engine.{entry, into, stepped, walked, resumed};
ghost use Rattle.structure.specs.declared.walking.Stop.TheVariants.{Misplaced};

use crate::names::is_passed_over;
use crate::rows::Rows;

// What can come next: a set of places, and whether the message could end.
#[derive(Clone, Copy)]
pub struct Next {
    pub places: u64,
    pub ends: bool,
}

// The segment that cannot stand where it stands, and what could have come there.
#[derive(Clone, Copy)]
pub struct Stuck {
    pub place: usize,
    pub next: Next,
}

// A walk on its way: what can come next, or where it is stuck.
pub type Course = Result<Next, Stuck>;

// Why a walk does not accept a message: a segment, or that it ended early, with the places that could have been filled
// there.
#[derive(Clone, Copy)]
pub enum Stop {
    Misplaced(Stuck),
    Early { place: usize, places: u64 },
}

// A walk that is stuck stops there.
impl From<Stuck> for Stop {
    ghost from_gives = { λ stuck stop. stop ≡ Misplaced stuck };

    fn from(stuck: Stuck) -> Stop {
        Stop::Misplaced(stuck)
    }
}

// A walk that begins, at place 0.
pub fn begin() -> Course
    ensures { (names follow : List ℕ) (last : ℕ) (all : List ℕ)
        → resumed names follow last result 0 all ≡ walked names follow last (into 1) 0 all }
{
    Ok(Next {
        places: 1,
        ends: false,
    })
}

// What can come next behind a place of the set that has the name.
pub fn step(rows: Rows<'_>, places: u64, name: u32) -> Next
    ensures { entry result.places result.ends
        ≡ stepped rows.entry.names.now rows.entry.follow.now rows.entry.last places name }
{
    let mut next: u64 = 0;
    let mut ends = false;
    let mut rest = places;
    while rest != 0 {
        let p = u64::trailing_zeros(rest) as usize;
        if p < rows.names.len() {
            if rows.names[p] == name {
                next = next | rows.follow[p];
                ends = ends | ((rows.last >> p) & 1 == 1);
            }
        }
        // without its lowest place
        rest = rest & (rest - 1);
    }
    Next { places: next, ends }
}

// A walk one segment on, which has a number, from 0, and a name. Where it is stuck it stays so.
pub fn advance(rows: Rows<'_>, course: Course, number: usize, name: u32) -> Course
    ensures { (later : List ℕ)
        → resumed rows.entry.names.now rows.entry.follow.now rows.entry.last result (number + 1) later
        ≡ resumed rows.entry.names.now rows.entry.follow.now rows.entry.last course number (name ∷ later) }
{
    let next = course?;
    if is_passed_over(rows.names, name) {
        return Ok(next);
    }
    let stepped = step(rows, next.places, name);
    if (stepped.places == 0) & !stepped.ends {
        return Err(Stuck {
            place: number,
            next,
        });
    }
    Ok(stepped)
}

// What a walk comes to where the names end; so many segments are behind.
pub fn finish(course: Course, number: usize) -> Result<(), Stop>
    ensures { (names follow : List ℕ) (last : ℕ) → result ≡ resumed names follow last course number [] }
{
    let next = course?;
    if next.ends {
        return Ok(());
    }
    Err(Stop::Early {
        place: number,
        places: next.places,
    })
}

// Walks the segments of a message, up to the first that cannot stand where it stands.
pub fn walk(message: &[u8], rows: Rows<'_>) -> Result<(), Stop>
    ensures { result
        ≡ walked rows.entry.names.now rows.entry.follow.now rows.entry.last (into 1) 0 (segment_names message.now) }
{
    let mut course = begin();
    let mut number = 0;
    let mut start = 0;
    let mut end = reading::segment_end(message, start);
    while end < message.len() {
        let name = reading::name_of(&message[start..end]);
        course = advance(rows, course, number, name);
        if course.is_err() {
            break;
        }
        number += 1;
        start = end + 1;
        end = reading::segment_end(message, start);
    }
    finish(course, number)
}
