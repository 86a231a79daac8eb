// Which product is asked for.
ghost use Rattle.std.specs.Prelude.{◌≡◌};
ghost use Rattle.cellbuild.specs.Kinds.{kind_of};

use product_places::Poles;

// The product of a name; none where no product is called so.
#[tactic(auto, unfolding(crate::specs::Kinds::kind_of))]
pub fn named(name: &[u8]) -> Option<Poles>
    ensures { result ≡ kind_of name.now }
{
    if name == b"duopyramid".as_slice() {
        Some(Poles::DUOPYRAMID)
    } else if name == b"duoprism".as_slice() {
        Some(Poles::DUOPRISM)
    } else if name == b"duotegum".as_slice() {
        Some(Poles::DUOTEGUM)
    } else if name == b"duocomb".as_slice() {
        Some(Poles::DUOCOMB)
    } else {
        None
    }
}
