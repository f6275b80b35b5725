// Which parts around a leaf are split, and by which address it is told then.
use crate::leaf::{Leaf, Row};
use element::Address;

// The parts of a message below its segments, from the largest on.
#[derive(Clone, Copy, PartialEq, Eq, PartialOrd, Ord)]
enum Level {
    Field,
    Repetition,
    Component,
    Subcomponent,
}

// The largest part that begins with a leaf. A subcomponent always does.
fn begun_by(leaf: Leaf) -> Level {
    let address = leaf.address;
    if address.subcomponent != 1 {
        return Level::Subcomponent;
    }
    if address.component != 1 {
        return Level::Component;
    }
    if address.repetition != 1 {
        return Level::Repetition;
    }
    Level::Field
}

// Whether a part has several parts of the level below it, by the rows behind the one that it begins with: the next that
// begins one of that level, or of one above, is in the same part where it begins no more than that.
fn is_split(behind: &[Row], below: Level) -> bool {
    for row in behind {
        let level = begun_by(Leaf::from(*row));
        if level <= below {
            return level == below;
        }
    }
    false
}

// Which parts around a leaf are split: its field into repetitions, its repetition into components, and its component
// into subcomponents.
#[derive(Clone, Copy)]
pub struct Split {
    repetitions: bool,
    components: bool,
    subcomponents: bool,
}

impl Split {
    // Before the first leaf of a segment.
    pub fn none() -> Split {
        Split {
            repetitions: false,
            components: false,
            subcomponents: false,
        }
    }

    // At a leaf, by the rows behind it. What is known of a part is known for all of its rows, so that no row is looked
    // at more than once for each level.
    pub fn at(self, leaf: Leaf, behind: &[Row]) -> Split {
        let level = begun_by(leaf);
        let mut split = self;
        if level <= Level::Field {
            split.repetitions = is_split(behind, Level::Repetition);
        }
        if level <= Level::Repetition {
            split.components = is_split(behind, Level::Component);
        }
        if level <= Level::Component {
            split.subcomponents = is_split(behind, Level::Subcomponent);
        }
        split
    }

    // The address by which a leaf is told. A repetition or component that stands alone has 0, which is left out; but a
    // component is told where its subcomponents are: PID-5.1.2, also where it stands alone.
    pub fn told(self, address: Address) -> Address {
        let is_component = self.components | self.subcomponents;
        Address {
            segment: 0,
            field: address.field,
            repetition: if self.repetitions {
                address.repetition
            } else {
                0
            },
            component: if is_component { address.component } else { 0 },
            subcomponent: if self.subcomponents {
                address.subcomponent
            } else {
                0
            },
        }
    }
}
