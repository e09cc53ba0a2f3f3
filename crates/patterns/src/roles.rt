// Which role is below which, by the sets of the roles above.
ghost use Rattle.std.specs.Prelude.{◌≡◌};
ghost use Rattle.patterns.specs.Table.{below_by};

use common::sets::has;

// Whether r is p or below it: whether p is in the set at r.
#[tactic(auto, using(common::proofs::SetLaws::has_none), unfolding(crate::specs::Table::below_by))]
pub fn below(above: &[u64], r: u8, p: u8) -> bool
    ensures { result ≡ below_by above.now r p }
{
    let Some(&set) = above.get(usize::from(r)) else {
        return false;
    };
    has(set, usize::from(p))
}
