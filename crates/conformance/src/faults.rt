//! The texts of the faults of devices and of a task.

use devices::fault::{EngineFault, OutFault};
use std::test::Fail;

#[test]
fn faults_of_a_task_are_displayed(rt: HostRuntime) -> Result<(), Fail> {
    let rows = [
        (EngineFault::Read, "read failed"),
        (EngineFault::Write, "write failed"),
        (EngineFault::Memory, "out of memory"),
        (EngineFault::Thread, "no thread"),
        (EngineFault::Stranger, "stranger"),
    ];
    for (fault, what) in rows {
        let text = fault.to_string(rt.alloc())?;
        assert!(rt; text.as_str().strip_prefix("nbhd: ") == Some(what));
    }
    Ok(())
}

#[test]
fn faults_of_an_output_are_displayed(rt: HostRuntime) -> Result<(), Fail> {
    let rows = [
        (OutFault::Write, "write failed"),
        (OutFault::Memory, "out of memory"),
    ];
    for (fault, what) in rows {
        let text = fault.to_string(rt.alloc())?;
        assert!(rt; text.as_str().strip_prefix("nbhd: ") == Some(what));
    }
    Ok(())
}
