//! The messages for lines that cannot be read, and an item that is read and shown again.
use crate::read::command_of;
use commands::command::Command;
use commands::listed::Listed;
use std::alloc::Global;
use std::test::Fail;

/// The message for a line, or the item that it places.
fn message(heap: Global, line: &str) -> Result<String, Fail> {
    match command_of(heap, line) {
        Ok(Command::Place(item)) => {
            let item = Listed(item);
            Ok(format!(in heap; "{item}")?)
        }
        Ok(_) => Ok(String::from_str(heap, "no item")?),
        Err(wrong) => Ok(format!(in heap; "{wrong}")?),
    }
}

#[test]
fn words_at_fault(rt: HostRuntime) -> Result<(), Fail> {
    let heap = rt.alloc();
    let foo = message(heap, "foo 1")?;
    assert!(rt;
        foo.as_str()
            == "expected open, place, withdraw, retime, undo, settle or items, found \"foo\""
    );
    let x = message(heap, "place 1 x 0 task 20 30 0 100 0")?;
    assert!(rt; x.as_str() == "expected a number from 0 to 65535 for the resource, found \"x\"");
    let switch = message(heap, "settle 500 1001")?;
    assert!(rt;
        switch.as_str() == "expected a number from 0 to 1000 for the switch, found \"1001\""
    );
    Ok(())
}

#[test]
fn forms(rt: HostRuntime) -> Result<(), Fail> {
    let heap = rt.alloc();
    let place = message(heap, "place 1 2 0 task 20 0 100 0")?;
    assert!(rt;
        place.as_str()
            == "expected place NUMBER RESOURCE PRIORITY task LEAST GREATEST PREDECESSOR PERIOD DELAY, or frame BYTES in place of task LEAST GREATEST"
    );
    let undo = message(heap, "undo 1")?;
    assert!(rt; undo.as_str() == "expected undo with nothing after it");
    Ok(())
}

#[test]
fn shown_again(rt: HostRuntime) -> Result<(), Fail> {
    let heap = rt.alloc();
    let task = message(heap, " place 1 2 0 task 20 30 0 100 0")?;
    assert!(rt; task.as_str() == "1 2 0 task 20 30 0 100 0");
    let frame = message(heap, "place 3 4 5 frame 8 1 0 0")?;
    assert!(rt; frame.as_str() == "3 4 5 frame 8 1 0 0");
    Ok(())
}
