// What is written for a record.

// Writes some bytes, and says whether they could be written; if not, the reason is told on standard error.
pub fn written(rt: &(impl Print + Eprint), bytes: &[u8]) -> bool {
    match rt.write_all(bytes) {
        Ok(()) => true,
        Err(e) => {
            let _ = eprintln!(rt; "standard output: {e}");
            false
        }
    }
}
