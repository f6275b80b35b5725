// Names among names, and the Z segments that a structure does not name.
ghost use Rattle.std.specs.Prelude.{◌≡◌};
ghost use Rattle.structure.specs.SegmentNames.{among, passed_over};

// The letter with which the names of a house's own segments begin.
const Z: u32 = 90;

// Whether a name is one of some names.
#[tactic(auto, using(crate::proofs::NameLaws::any_among))]
pub fn is_among(names: &[u32], name: u32) -> bool
    ensures { result ≡ among name names.now }
{
    names.contains(&name)
}

// Whether a segment of this name is taken out before a message is judged by a structure that has these names.
#[tactic(auto, unfolding(crate::specs::SegmentNames::passed_over))]
pub fn is_passed_over(names: &[u32], name: u32) -> bool
    ensures { result ≡ passed_over names.now name }
{
    (name / 65536 == Z) && !is_among(names, name)
}
