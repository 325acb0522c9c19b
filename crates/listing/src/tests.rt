//! The messages for texts that cannot be read, and one that can.
use crate::text::read;
use std::alloc::Global;
use std::test::Fail;

/// The message for a text, or how many rows it has.
fn message(heap: Global, text: &[u8]) -> Result<String, Fail> {
    match read(heap, text) {
        Ok(told) => {
            let rows = told.records.len();
            Ok(format!(in heap; "rows: {rows}")?)
        }
        Err(fault) => Ok(format!(in heap; "{fault}")?),
    }
}

#[test]
fn bad_bit_times(rt: HostRuntime) -> Result<(), Fail> {
    let heap = rt.alloc();
    let end = message(heap, b"")?;
    assert!(rt;
        end.as_str() == "line 1: expected a bit time from 0 to 255, found the end of the text"
    );
    let none = message(heap, b"# a comment\n\n")?;
    assert!(rt;
        none.as_str() == "line 3: expected a bit time from 0 to 255, found the end of the text"
    );
    let large = message(heap, b"# a comment\n\n256\n")?;
    assert!(rt; large.as_str() == "line 3: expected a bit time from 0 to 255, found \"256\"");
    Ok(())
}

#[test]
fn bad_rows(rt: HostRuntime) -> Result<(), Fail> {
    let heap = rt.alloc();
    let few = message(heap, b"8\n0 2500 0 824\n")?;
    assert!(rt;
        few.as_str()
            == "line 2: expected 5 numbers (priority, period, jitter, least, greatest), found 4"
    );
    let word = message(heap, b"8\n0 2500 0 824 1000\n1 x 0 824 1000\n")?;
    assert!(rt;
        word.as_str()
            == "line 3: expected a number from 0 to 4294967295 for the period, found \"x\""
    );
    let no_text = message(heap, b"8\n\xff\n")?;
    assert!(rt; no_text.as_str() == "line 2: expected text in UTF-8");
    Ok(())
}

#[test]
fn good_text(rt: HostRuntime) -> Result<(), Fail> {
    let text = message(
        rt.alloc(),
        b"8\r\n\t1 2000 0 900 1000\n# no more\n 2 4294967295 0 1 1\n",
    )?;
    assert!(rt; text.as_str() == "rows: 2");
    Ok(())
}
