// Declaring role lines and rule lines.
ghost use Rattle.std.specs.Prelude.{◌≡◌};
ghost use Rattle.follow.specs.Declaring.{declared_as};
ghost use Rattle.intake.specs.Declaring.{LineDeclared};
ghost use Rattle.intake.specs.Represents.{SheetSized, table_of};

use code::{role_line, rule_line};
use common::{Refusal, prefix};
use follow::{Sheet, State};
use grammar::{LineKind, line_kind};

// The packed names of the roles held. The arrays' lengths are those of their types.
pub fn role_names(sheet: &Sheet) -> &[u64]
    ensures names { result.now ≡ table_of sheet.now }
    ensures sized { SheetSized sheet.now }
{
    prefix(&sheet.names, sheet.role_count)
}

// The text of a line: refusals 4 to 8, or the role or rule joins, and its packed name is the answer. Where it is refused, nothing changes.
pub fn declare(state: &mut State, text: &[u8]) -> Result<u64, Refusal>
    ensures { LineDeclared state.old text.now (declared_as result state.new) }
{
    let names = role_names(&state.sheet);
    match line_kind(text) {
        Some(LineKind::Role) => {
            let line = role_line(text, names);
            state.declare_role(line)
        }
        Some(LineKind::Rule) => {
            let line = rule_line(text, names);
            state.declare_rule(line)
        }
        None => Err(Refusal::NotInLanguage),
    }
}
