// A record through the readers, in the order of the refusals.
use crate::shown::{code_shown, name_shown, roles_shown};
use code::{Encoded, event_ids, event_line, patterns, role_line, rule_line};
use common::Refusal;
use frame::{RecordKind, framed, text};
use grammar::{LineKind, line_kind};
use std::io;

// A refusal that nothing stands before.
fn refused(rt: &impl Print, refusal: Refusal) -> io::Result<()> {
    print!(rt; "refused {}", refusal.number())
}

// A role line: its name, and whether its parent is held.
fn role(rt: &impl Print, text: &[u8], held: &[u64]) -> io::Result<()> {
    let line = role_line(text, held);
    rt.write_all(b"role ")?;
    name_shown(rt, line.name)?;
    if line.parent.is_some() {
        return rt.write_all(b", parent held");
    }
    rt.write_all(b", parent not held, refused 6")
}

// How many patterns a past has, by the code that begins with it.
fn patterns_shown(rt: &impl Print, body: &Encoded) -> io::Result<()> {
    match body.bytes() {
        Some(code) => print!(rt; "{}", patterns(code)),
        None => Ok(()),
    }
}

// The code of a rule.
fn body_shown(rt: &impl Print, body: &Encoded, held: &[u64]) -> io::Result<()> {
    match body.bytes() {
        Some(code) => code_shown(rt, code, held),
        None => Ok(()),
    }
}

// Whether the roles are held and the patterns few enough, with the refusal: 6 before 7.
fn verdict(rt: &impl Print, unknown: bool, fits: bool) -> io::Result<()> {
    if unknown {
        return rt.write_all(b", role not held, refused 6");
    }
    rt.write_all(b", roles held")?;
    if fits {
        return Ok(());
    }
    rt.write_all(b", refused 7")
}

// A rule line: its name, the number of patterns in its past, whether its roles are held, and its code.
fn rule(rt: &impl Print, text: &[u8], held: &[u64]) -> io::Result<()> {
    let line = rule_line(text, held);
    rt.write_all(b"rule ")?;
    name_shown(rt, line.name)?;
    rt.write_all(b", patterns ")?;
    patterns_shown(rt, &line.body)?;
    if line.fits {
        rt.write_all(b" fit")?;
    } else {
        rt.write_all(b" too many")?;
    }
    verdict(rt, line.body.unknown, line.fits)?;
    rt.write_all(b", code ")?;
    body_shown(rt, &line.body, held)
}

// A line's text.
fn line(rt: &impl Print, text: &[u8], held: &[u64]) -> io::Result<()> {
    match line_kind(text) {
        Some(LineKind::Role) => role(rt, text, held),
        Some(LineKind::Rule) => rule(rt, text, held),
        None => refused(rt, Refusal::NotInLanguage),
    }
}

// The ids of an event whose roles are not all held, which no event line hands back.
fn ids_shown(rt: &impl Print, text: &[u8], held: &[u64]) -> io::Result<()> {
    match event_ids(text, held) {
        Some(event) => roles_shown(rt, event.roles(), held),
        None => Ok(()),
    }
}

// An event's text: whether its roles are held, and their ids, which are those of the event handed back where they are held.
fn event(rt: &impl Print, text: &[u8], held: &[u64]) -> io::Result<()> {
    match event_line(text, held) {
        Ok(event) => {
            rt.write_all(b"event, roles held, ids")?;
            roles_shown(rt, event.roles(), held)
        }
        Err(Refusal::NotDeclared) => {
            rt.write_all(b"event, role not held, refused 6, ids")?;
            ids_shown(rt, text, held)
        }
        Err(refusal) => refused(rt, refusal),
    }
}

// What became of any bytes.
pub fn judged(rt: &impl Print, bytes: &[u8], held: &[u64]) -> io::Result<()> {
    match framed(bytes) {
        Ok(RecordKind::Line) => line(rt, text(bytes), held),
        Ok(RecordKind::Event) => event(rt, text(bytes), held),
        Err(refusal) => refused(rt, refusal),
    }
}
