// What the judge reads of a sheet.
ghost use Rattle.std.specs.Prelude.{◌≡◌};
ghost use Rattle.judge.specs.Judging.{lent_by, lent_of};

use follow::Sheet;

// All of a sheet but the table of parents and the names of its rules, lent: the first `roles` names and sets of roles above count, and the first `rules` rows
// and ends.
// Kept: slices side by side, as they are the sheet's own arrays, lent; the judge took them one by one, of any lengths, and asks no more now.
#[derive(Clone, Copy)]
pub struct SheetView<'a> {
    pub names: &'a [u64],
    pub roles: usize,
    pub above: &'a [u64],
    pub rows: &'a [u8],
    pub ends: &'a [u64],
    pub rules: usize,
}

impl<'a> From<&'a Sheet> for SheetView<'a> {
    ghost from_gives = { λ sheet view. lent_by view ≡ lent_of sheet.now };

    // The sheet's own arrays and counts.
    fn from(sheet: &'a Sheet) -> SheetView<'a> {
        SheetView {
            names: &sheet.names,
            roles: sheet.role_count,
            above: &sheet.above,
            rows: &sheet.rows,
            ends: &sheet.ends,
            rules: sheet.rule_count,
        }
    }
}
