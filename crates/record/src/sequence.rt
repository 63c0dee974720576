// Sequence ids (document 01, 'Units').
ghost use Rattle.std.specs.Prelude.{◌≡◌};
ghost use Rattle.record.specs.Ids.{id_after};

// The id that follows: 0 comes after 65535.
#[tactic(auto, unfolding(crate::specs::Ids::id_after))]
pub fn id_after(id: u16) -> u16
    ensures { result ≡ id_after id }
{
    id.wrapping_add(1)
}
