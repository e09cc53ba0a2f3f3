// What the chain reads of a state.
ghost use Rattle.std.specs.Prelude.{◌≡◌};
ghost use Rattle.chain.specs.Duties.{seen, view_of};

use follow::State;

// A state's rules as the chain reads them: their rows, ends and positions, the sets of the roles above, and how many rules there are. The slices may
// have any lengths and hold anything.
// Kept: slices side by side, as they are the state's own arrays, lent; the functions took them one by one, of any lengths, and ask no more now.
#[derive(Clone, Copy)]
pub struct View<'a> {
    pub rows: &'a [u8],
    pub ends: &'a [u64],
    pub positions: &'a [u64],
    pub above: &'a [u64],
    pub count: usize,
}

impl<'a> From<&'a State> for View<'a> {
    ghost from_gives = { λ state view. seen view ≡ view_of state.now };

    // The state's own arrays and count.
    fn from(state: &'a State) -> View<'a> {
        View {
            rows: &state.sheet.rows,
            ends: &state.sheet.ends,
            positions: &state.positions,
            above: &state.sheet.above,
            count: state.sheet.rule_count,
        }
    }
}
