// Texts and files of a few lines, sound and faulty.
use crate::fault::{FileFault, LineFault, TextFault};
use crate::parse::from_text;
use crate::print::to_text;
use std::alloc::Global;
use std::test::Fail;
use steps::fault::{EntryFault, FrameFault};

// One word is read, written and committed.
const SHEET: &str =
    "setup 3 2 1 4 7 1 0 1 2\nopen 0\nread 0 5\nwrite 0 5 112\ncommit 0\nsend 0\npoll 0 0\ntake 0 0\nsend 0\nsend 0\nsend 0\npoll 0 0\npoll 0 0\n";

// The same as a step file.
const SHEET_BYTES: &[u8; 91] =
    b"\x01\0\x18\0\x03\x02\x01\x04\0\0\0\0\0\0\0\x07\0\0\0\0\0\0\0\x01\0\x01\x02\0\x02\x01\0\0\x04\x02\0\0\x05\0\x0c\x03\0\0\x05\0\0\0\0\0\0\0\x70\0\x02\x05\0\0\x02\x06\0\0\x03\x07\0\0\0\x03\x08\0\0\0\x02\x06\0\0\x02\x06\0\0\x02\x06\0\0\x03\x07\0\0\0\x03\x07\0\0";

#[test]
fn sheet(rt: HostRuntime) -> Result<(), Fail> {
    let heap = rt.alloc();
    let bytes = from_text(heap, SHEET)?;
    assert_eq!(rt; bytes.as_slice(), SHEET_BYTES.as_slice());
    let text = to_text(heap, &bytes)?;
    assert_eq!(rt; text.as_str(), SHEET);
    Ok(())
}

// Comments, blanks of several kinds, blank lines and ends of lines as on other systems.
#[test]
fn free_form(rt: HostRuntime) -> Result<(), Fail> {
    let heap = rt.alloc();
    let bytes = from_text(
        heap,
        "# a step\r\n\r\n \tabandon  1# of one number\r\n#\ntrim 1\t2",
    )?;
    assert_eq!(rt;
        bytes.as_slice(),
        b"\x01\0\x02\x04\x01\0\x03\x0a\x01\x02".as_slice()
    );
    let text = to_text(heap, &bytes)?;
    assert_eq!(rt; text.as_str(), "abandon 1\ntrim 1 2\n");
    Ok(())
}

// Nine regions, which no plan has: each has its three machines all the same.
#[test]
fn nine_regions(rt: HostRuntime) -> Result<(), Fail> {
    let heap = rt.alloc();
    let nine = "0 1 2 3 4 5 6 7 8 9 10 11 12 13 14 15 16 17 18 19 20 21 22 23 24 25 26";
    let line = format!(in heap; "setup 3 2 9 4 7 1 {nine}\n")?;
    let bytes = from_text(heap, line.as_str())?;
    assert_eq!(rt; bytes.len(), 51);
    assert_eq!(rt; bytes[50], 26);
    let text = to_text(heap, &bytes)?;
    assert_eq!(rt; text.as_str(), line.as_str());
    Ok(())
}

fn text_fault(heap: Global, text: &str) -> Option<TextFault> {
    from_text(heap, text).err()
}

#[test]
fn faulty_lines(rt: HostRuntime) {
    let heap = rt.alloc();
    for (n, (text, fault)) in (1..).zip([
        ("opened 0", LineFault::UnknownStep),
        ("\nOpen 0", LineFault::UnknownStep),
        ("\n\nopen -1", LineFault::NotANumber),
        ("\n\n\nopen 256", LineFault::TooBig),
        ("\n\n\n\nread 0 65536", LineFault::TooBig),
        (
            "\n\n\n\n\nwrite 0 0 18446744073709551616",
            LineFault::TooBig,
        ),
        ("\n\n\n\n\n\nsetup 3 2 256", LineFault::TooBig),
        (
            "\n\n\n\n\n\n\nopen",
            LineFault::WrongCount {
                wanted: 1,
                found: 0,
            },
        ),
        (
            "\n\n\n\n\n\n\n\nsetup 3 2 1 4 7 1 0 1 2 3",
            LineFault::WrongCount {
                wanted: 9,
                found: 10,
            },
        ),
    ]) {
        assert_eq!(rt; text_fault(heap, text), Some(TextFault { line: n, fault }));
    }
}

#[test]
fn file_too_long(rt: HostRuntime) -> Result<(), Fail> {
    let heap = rt.alloc();
    let mut long = String::new(heap);
    for _ in 0..16384 {
        long.push_str("open 0\n")?;
    }
    let Some(fault) = text_fault(heap, long.as_str()) else {
        return Err(Fail::new("a file that is too long"));
    };
    assert_eq!(rt;
        format!(in heap; "{fault}")?.as_str(),
        "line 16384: the file has more than 65536 bytes"
    );
    Ok(())
}

fn file_fault(heap: Global, bytes: &[u8]) -> Option<FileFault> {
    to_text(heap, bytes).err()
}

#[test]
fn faulty_files(rt: HostRuntime) -> Result<(), Fail> {
    let heap = rt.alloc();
    for (bytes, fault) in [
        (b"".as_slice(), EntryFault::Frame(FrameFault::BadVersion)),
        (
            b"\x01\0\x02\x01",
            EntryFault::Frame(FrameFault::CutShort { place: 1 }),
        ),
        (
            b"\x01\0\x02\x01\0\0\x01\x0b",
            EntryFault::UnknownKind { place: 5 },
        ),
        (b"\x01\0\0", EntryFault::WrongLength { place: 1 }),
        (b"\x01\0\x03\x01\0\0", EntryFault::WrongLength { place: 1 }),
    ] {
        assert_eq!(rt; file_fault(heap, bytes), Some(FileFault::Entry(fault)));
    }
    let Some(fault) = file_fault(heap, b"\x01\0\0") else {
        return Err(Fail::new("an entry with no kind"));
    };
    assert_eq!(rt; format!(in heap; "{fault}")?.as_str(), "fault 16 1 2");
    Ok(())
}
