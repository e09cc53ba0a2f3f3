// What is printed: bytes, names, code and ids.
use common::sizes::NAME_SIZE;
use std::io;

// A printable byte as it is, and another as two hexadecimal digits in curly brackets.
pub fn byte(rt: &impl Print, b: u8) -> io::Result<()> {
    match b {
        b' '..=b'~' => rt.write_all(&[b]),
        _ => print!(rt; "{{{b:02x}}}"),
    }
}

// A packed name without the spaces that pad it.
pub fn name_shown(rt: &impl Print, packed: u64) -> io::Result<()> {
    // Kept: column by column, which tries `names::column`.
    for i in 0..NAME_SIZE {
        let b = names::column(packed, i);
        if b != b' ' {
            byte(rt, b)?;
        }
    }
    Ok(())
}

// The name of an id in curly brackets, and a question mark where no name has that id.
fn role_shown(rt: &impl Print, id: u8, held: &[u64]) -> io::Result<()> {
    rt.write_all(b"{")?;
    match held.get(usize::from(id)) {
        Some(name) => name_shown(rt, *name)?,
        None => rt.write_all(b"?")?,
    }
    rt.write_all(b"}")
}

// Code, a byte a token: one from 128 on as the role with that id.
pub fn code_shown(rt: &impl Print, code: &[u8], held: &[u64]) -> io::Result<()> {
    for b in code {
        match b.checked_sub(128) {
            Some(id) => role_shown(rt, id, held)?,
            None => byte(rt, *b)?,
        }
    }
    Ok(())
}

// An id with its name.
fn id_shown(rt: &impl Print, id: u8, held: &[u64]) -> io::Result<()> {
    print!(rt; " {id} ")?;
    role_shown(rt, id, held)
}

// Ids, each with its name.
pub fn roles_shown(rt: &impl Print, roles: &[u8], held: &[u64]) -> io::Result<()> {
    for id in roles {
        id_shown(rt, *id, held)?;
    }
    Ok(())
}
