//! Inputs, read whole.

use bx_engine::{Unread, read_input};
use bx_terms::Fault;
use bxemu_testkit::{FailingReader, Interrupted};
use std::alloc::Global;
use std::test::Fail;

/// A reader of so many bytes, in pieces.
fn reader(more: usize, piece: usize) -> FailingReader<'static> {
    FailingReader {
        more,
        piece,
        ..FailingReader::new(b"")
    }
}

/// Why a reader's bytes are not had; out of memory is handed on.
fn refusal(alloc: Global, reader: &mut FailingReader<'_>) -> Result<Option<Unread>, Fault> {
    match read_input(alloc, reader) {
        Ok(_) => Ok(None),
        Err(Unread::Memory) => Err(Fault::Memory),
        Err(unread) => Ok(Some(unread)),
    }
}

#[test]
fn reads_bytes_in_order(rt: HostRuntime) -> Result<(), Fail> {
    for text in [
        b"".as_slice(),
        b"\x00".as_slice(),
        b"{module,m}.\xff".as_slice(),
    ] {
        let mut reader = text;
        let bytes = read_input(rt.alloc(), &mut reader)?;
        assert!(rt; bytes.as_slice() == text, "{text:?}");
    }
    Ok(())
}

#[test]
fn takes_an_input_up_to_the_limit(rt: HostRuntime) -> Result<(), Fail> {
    for (left, piece) in [(70_000, 7), (16_777_216, 65_536), (16_777_216, 50_000)] {
        let mut reader = reader(left, piece);
        let bytes = read_input(rt.alloc(), &mut reader)?;
        assert_eq!(rt; bytes.len(), left);
        assert_eq!(rt; reader.more, 0);
    }
    for left in [16_777_217, 20_000_000] {
        let refused = refusal(rt.alloc(), &mut reader(left, 65_536))?;
        assert!(rt; refused == Some(Unread::TooLarge), "{left}");
    }
    Ok(())
}

#[test]
fn passes_on_the_first_fault(rt: HostRuntime) -> Result<(), Fail> {
    let mut waiting = reader(10, 4);
    waiting.interrupted = Interrupted::EachSecond;
    assert_eq!(rt; read_input(rt.alloc(), &mut waiting)?.len(), 10);
    for fails_at in 0..4 {
        let mut reader = reader(10, 4);
        reader.fails_at = fails_at;
        let refused = refusal(rt.alloc(), &mut reader)?;
        assert!(rt; refused == Some(Unread::Failed), "at {fails_at}");
        assert_eq!(rt; reader.calls, fails_at + 1);
    }
    Ok(())
}

#[test]
fn asks_so_often_and_no_more(rt: HostRuntime) -> Result<(), Fail> {
    let mut reader = FailingReader::new(b"");
    reader.interrupted = Interrupted::First(u32::MAX);
    let refused = refusal(rt.alloc(), &mut reader)?;
    assert!(rt; refused == Some(Unread::Failed));
    assert_eq!(rt; reader.calls, 33_554_434);
    Ok(())
}
