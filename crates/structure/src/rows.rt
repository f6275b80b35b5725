// The tables of a structure as one value: whoever judges by a structure is handed them alike, wherever they come from.
ghost use Rattle.std.specs.Prelude.{◌≡◌, ◌≤◌, length};

// A row for each place where a name stands: the name, and the set of places that can be filled next, in which bit p is
// place p. `last` is the set of places behind which a message can end.
// Two slices and none of pairs: the names are asked for alone, and the tables' theorems speak of each.
#[derive(Clone, Copy)]
pub struct Rows<'a> {
    pub names: &'a [u32],
    pub follow: &'a [u64],
    pub last: u64,
    pub ghost fits: { (length names.now ≤ 64) × (length follow.now ≡ length names.now) },
}
