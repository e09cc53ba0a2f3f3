// The records of an image, from a state, each laid after the one before as far as there is room.
ghost use Rattle.std.specs.Prelude.{◌≡◌, ◌+◌, ◌^◌, ◌<◌, List, ℕ, get_or};
ghost use Rattle.names.specs.Unpacked.{unpacked};
ghost use Rattle.grammar.specs.AsRead.{role};
ghost use Rattle.render.specs.Records.{line_record};
ghost use Rattle.columns.specs.Writing.{Writes};
ghost use Rattle.snapshot.specs.Written.{first_of, parent_in, role_at, rule_at, marks_at, image_from};

use crate::digits::DIGITS;
use crate::marks::mark_record;
use columns::text;
use follow::{Sheet, State, code_of, number_at, row};
use render::{role_record, rule_record};

// The line of a role, by its id.
fn role_line(sheet: &Sheet, id: usize) -> [u8; 128]
    ensures { result ≡ line_record (role (unpacked (get_or sheet.now.names id 0)) (unpacked (parent_in sheet.now.names sheet.now.parents id))) }
{
    let parent = sheet.parents.get(id).copied().unwrap_or(0);
    role_record(
        number_at(&sheet.names, id),
        number_at(&sheet.names, usize::from(parent)),
    )
}

// The line of rule i.
fn rule_line(sheet: &Sheet, i: usize) -> [u8; 128]
    ensures { result ≡ rule_at sheet.now.names sheet.now.rule_names sheet.now.rows i }
{
    rule_record(
        number_at(&sheet.rule_names, i),
        code_of(row(&sheet.rows, i)),
        &sheet.names,
    )
}

// The record of the marks of rule i.
fn rule_marks(state: &State, i: usize) -> [u8; 128]
    ensures { result ≡ marks_at state.now.sheet.rule_names state.now.positions i }
{
    mark_record(
        DIGITS,
        number_at(&state.sheet.rule_names, i),
        number_at(&state.positions, i),
    )
}

// The first `count` records, one after the other; and the place after them.
fn put_records<F: Fn(usize) -> [u8; 128]>(out: &mut [u8], at: usize, count: usize, line: F) -> usize
    requires { (i : ℕ) → i < count → F.pre line i }
    ensures { (f : ℕ → List ℕ) → ((i : ℕ) → i < count → (r : List ℕ) → F.post line i r → r ≡ f i)
        → Writes at (first_of f count) out.old out.new result }
{
    let mut next = at;
    // Kept: an index. `line` makes record i of i alone, and there is no list of records to go over.
    for i in 0..count {
        next = text(out, next, &line(i));
    }
    next
}

// The whole image: the lines of the roles after top, the rule lines, and the rules' marks.
pub fn put_image(state: &State, roles: usize, rules: usize, out: &mut [u8]) -> usize
    ensures { Writes 0
        (image_from state.now.sheet.names state.now.sheet.parents roles state.now.sheet.rule_names state.now.sheet.rows state.now.positions rules)
        out.old out.new result }
{
    let sheet = &state.sheet;
    let role = |i: usize|
        requires { i + 1 < 2 ^ 64 }
        ensures { result ≡ role_at sheet.entry.now.names sheet.entry.now.parents i }
    { role_line(sheet, i + 1) };
    let rule = |i: usize|
        ensures { result ≡ rule_at sheet.entry.now.names sheet.entry.now.rule_names sheet.entry.now.rows i }
    { rule_line(sheet, i) };
    let marks = |i: usize|
        ensures { result ≡ marks_at state.entry.now.sheet.rule_names state.entry.now.positions i }
    { rule_marks(state, i) };
    let rules_at = put_records(out, 0, roles, role);
    let marks_at = put_records(out, rules_at, rules, rule);
    put_records(out, marks_at, rules, marks)
}
