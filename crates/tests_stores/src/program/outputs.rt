//! A text that is written whole, and lines that are told.
use crate::program::planned::{Full, Unflushed, assert_text};
use std::alloc::Global;
use zarrs_program::{WriteFault, tell, tell_line, write_whole};

// The text of a fault, or no text.
fn said(alloc: Global, answer: &Result<(), WriteFault>) -> Option<String> {
    match answer {
        Ok(()) => Some(String::new(alloc)),
        Err(fault) => format!(in alloc; "{fault:?}: {fault}").ok(),
    }
}

// What stands in a file that had a text, once a text is written, something is told and a line is.
fn written(alloc: Global) -> Option<String> {
    let mut file = Vec::new(alloc);
    file.extend_from_slice(b"old ".as_slice()).ok()?;
    write_whole(b"text\n".as_slice(), &mut file).ok()?;
    write_whole(b"".as_slice(), &mut file).ok()?;
    tell("zarrs", &"out of memory", &mut file).ok()?;
    tell("zarrs", &7u32, &mut file).ok()?;
    tell_line(&"usage: zarrs", &mut file).ok()?;
    String::from_utf8(file).ok()
}

#[test]
fn texts_and_lines_are_appended(rt: HostRuntime) {
    let found = written(rt.alloc()).expect(&rt, "memory");
    let wanted = "old text\nzarrs: out of memory\nzarrs: 7\nusage: zarrs\n";
    assert_text(&rt, "a file", found.as_str(), wanted);
}

#[test]
fn a_writer_that_fails_is_a_fault(rt: HostRuntime) {
    let fault = "WriteFault: write fault";
    let table = [
        (write_whole(b"x".as_slice(), &mut Full), fault),
        (write_whole(b"".as_slice(), &mut Full), ""),
        (write_whole(b"x".as_slice(), &mut Unflushed), fault),
        (write_whole(b"".as_slice(), &mut Unflushed), fault),
        (tell("zarrs", &"x", &mut Full), fault),
        (tell_line(&"x", &mut Full), fault),
        (tell("zarrs", &"x", &mut Unflushed), ""),
        (tell_line(&"x", &mut Unflushed), ""),
    ];
    for (answer, wanted) in table {
        let found = said(rt.alloc(), &answer).expect(&rt, "memory");
        assert_text(&rt, "a writer", found.as_str(), wanted);
    }
}
