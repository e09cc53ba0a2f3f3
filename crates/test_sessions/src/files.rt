// The files of a session, by its name.
use std::fs::File;
use std::io;
use std::io::ErrorKind;
use std::rt::Files;

// A name and four bytes after it, at the start of `bytes`. A name is cut at 60 bytes, and there is then no such file.
pub fn with_ending<'a>(name: &[u8], ending: &[u8; 4], bytes: &'a mut [u8; 64]) -> &'a [u8] {
    let n = name.len().min(60);
    bytes[..n].copy_from_slice(&name[..n]);
    bytes[n..n + 4].copy_from_slice(ending);
    &bytes[..n + 4]
}

// Opens a session's file with an ending for reading. A name that is no text is an error, as is one that no file has.
pub fn opened<R: Files>(rt: &R, name: &[u8], ending: &[u8; 4]) -> io::Result<R::File> {
    let mut bytes = [0u8; 64];
    match str::from_utf8(with_ending(name, ending, &mut bytes)) {
        Ok(path) => File::open(rt, path),
        Err(_) => Err(io::Error::from(ErrorKind::InvalidInput)),
    }
}
