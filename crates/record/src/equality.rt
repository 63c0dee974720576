// Whether two identities are the same. (The record and its other parts are compared by crate `same`.)
ghost use Rattle.std.specs.Prelude.{◌≡◌};
ghost use Rattle.record.specs.Same.{same_identity};

use wire::Identity;

#[tactic(auto, unfolding(crate::specs::Same::same_identity))]
pub fn same_identity(a: Identity, b: Identity) -> bool
    ensures { result ≡ same_identity a b }
{
    a == b
}
