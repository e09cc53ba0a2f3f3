// What the judge over a sheet needs: the monitor that the sheet leaves.
ghost use Rattle.stand.specs.Sheets.{RecordLeaves, SheetLeaves};

use common::sizes::{RECORD_SIZE, REPLY_SIZE};
use follow::State;
use monitor::handle;

// Hands a record to the monitor, its reply dropped.
fn take_in(monitor: &mut State, bytes: &[u8])
    ensures { RecordLeaves monitor.old bytes.now monitor.new }
{
    let mut reply = [0u8; REPLY_SIZE];
    let _ = handle(monitor, bytes, &mut reply);
}

// The monitor that a sheet leaves.
pub fn after(sheet: &[u8]) -> State
    ensures { SheetLeaves sheet.now result }
{
    let mut monitor = monitor::new();
    for record in sheet.chunks_exact(RECORD_SIZE) {
        take_in(&mut monitor, record);
    }
    monitor
}
