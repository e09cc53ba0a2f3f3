// Lines as records: byte 0, the text, spaces and the newline.
//
// Kept: a blank record, its text and the newline, written out here twice and once in `snapshot`. A function that takes the text's writer as a closure would
// promise its bytes through the closure's promise, which is no plainer.
ghost use Rattle.std.specs.Prelude.{◌≡◌};
ghost use Rattle.names.specs.Unpacked.{unpacked};
ghost use Rattle.grammar.specs.AsRead.{role};
ghost use Rattle.render.specs.Decoded.{rule_text};
ghost use Rattle.frame.specs.Record.{line_byte};
ghost use Rattle.render.specs.Records.{line_record, text_record};

use crate::codes::tokens;
use columns::{put, text, word};

// The record of a role line, from the packed names of the role and its parent.
pub fn role_record(name: u64, parent: u64) -> [u8; 128]
    ensures { result ≡ line_record (role (unpacked name) (unpacked parent)) }
{
    let mut out = [b' '; 128];
    let named = text(&mut out, 0, b"Lrole ");
    let under = word(&mut out, named, name);
    let above = text(&mut out, under, b" under ");
    word(&mut out, above, parent);
    out[127] = b'\n';
    out
}

// The record of a rule line, from its packed name, its code, and the packed names of the roles.
pub fn rule_record(name: u64, code: &[u8], names: &[u64]) -> [u8; 128]
    ensures { result ≡ text_record line_byte (rule_text names.now name code.now) }
{
    let mut out = [b' '; 128];
    let named = text(&mut out, 0, b"Lrule ");
    let colon = word(&mut out, named, name);
    let body = put(&mut out, colon, b':');
    tokens(&mut out, body, code, names);
    out[127] = b'\n';
    out
}
