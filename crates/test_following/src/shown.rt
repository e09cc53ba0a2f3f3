// What is printed of a name.
use common::sizes::NAME_SIZE;
use std::io;

// A packed name without the spaces that pad it.
pub fn name(rt: &impl Print, packed: u64) -> io::Result<()> {
    // Kept: column by column, which tries `names::column`.
    for i in 0..NAME_SIZE {
        let b = names::column(packed, i);
        if b != b' ' {
            rt.write_all(&[b])?;
        }
    }
    Ok(())
}
