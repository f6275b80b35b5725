// The names that could have stood at a place of a message, once each, in the order of the places that they could have
// filled.
ghost use Rattle.std.specs.Prelude.{◌≡◌, ◌≤◌, length};
ghost use Rattle.fault.specs.Faults.{name_list};
ghost use Rattle.structure.specs.Engine.{listing};

use crate::names::is_among;
use fault::Names;

// The names of the places of a set.
pub fn names_at(names: &[u32], places: u64) -> Names
    requires { length names.now ≤ 64 }
    ensures { result ≡ name_list (listing names.now places (length names.now)) }
{
    let mut listed = Names::none();
    for (place, name) in names.iter().enumerate() {
        let known = is_among(listed.as_slice(), *name);
        if ((places >> place) & 1 == 1) & !known {
            listed.push(*name);
        }
    }
    listed
}
