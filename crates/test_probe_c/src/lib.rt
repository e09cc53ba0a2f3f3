// The calls of `test_probe` under their C names, for the random test of pasts: `rt lib` makes a static library of them.
#![tactic(auto)]

// One rule's past over a list of events.
#[unsafe(no_mangle)]
pub extern "C" fn probe_past(text: &[u8], events: &[u8], out: &mut [u8]) -> u32 {
    test_probe::probe_past(text, events, out)
}

// The rules of a list of texts over a list of events, `rounds` times over.
#[unsafe(no_mangle)]
pub extern "C" fn probe_commit(texts: &[u8], events: &[u8], rounds: u32) -> u64 {
    test_probe::probe_commit(texts, events, rounds)
}
