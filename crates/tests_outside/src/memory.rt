// What the objects in memory do where they are told to fail, which no clause says.
use cq_outside::{
    MemShelf, MemSink, MemSource, ReadFault, Shelf, ShelfFault, SteadySource, read_whole,
    write_whole,
};
use std::test::Fail;

#[test]
fn a_source_gives_its_bytes_in_pieces_and_fails_at_the_told_reads(
    rt: HostRuntime,
) -> Result<(), Fail> {
    let table: [(&[u64], usize, Option<&str>, Option<&str>); 6] = [
        (&[], 1, Some("abcde"), Some("")),
        (&[], 2, Some("abcde"), Some("")),
        (&[], 9, Some("abcde"), Some("")),
        (&[1], 2, None, Some("abcde")),
        (&[3], 2, None, Some("e")),
        (&[4, 5], 2, None, None),
    ];
    for (fails, piece, first, second) in table {
        assert!(rt; piece > 0);
        let mut source = MemSource::new(rt.alloc(), b"abcde", fails, piece)?;
        for want in [first, second] {
            let got = read_whole(rt.alloc(), &mut source, 5);
            match want {
                Some(text) => assert_eq!(rt; got?.as_slice(), text.as_bytes(), "pieces of {piece}"),
                None => assert_eq!(rt; got.err(), Some(ReadFault::Failed), "pieces of {piece}"),
            }
        }
    }
    Ok(())
}

#[test]
fn a_source_past_the_limit_is_too_large(rt: HostRuntime) -> Result<(), Fail> {
    for (limit, want) in [(4, Some(ReadFault::TooLarge)), (5, None), (6, None)] {
        let mut source = SteadySource::new(rt.alloc(), b"abcde")?;
        let got = read_whole(rt.alloc(), &mut source, limit);
        assert_eq!(rt; got.err(), want, "limit {limit}");
    }
    Ok(())
}

#[test]
fn a_sink_takes_pieces_and_fails_at_the_told_writes(rt: HostRuntime) -> Result<(), Fail> {
    let table: [(&[u64], usize, bool, &str); 6] = [
        (&[], 1, true, "abcde"),
        (&[], 2, true, "abcde"),
        (&[], 9, true, "abcde"),
        (&[1], 3, false, ""),
        (&[2], 3, false, "abc"),
        (&[3], 2, false, "abcd"),
    ];
    for (fails, piece, written, held) in table {
        assert!(rt; piece > 0);
        let mut sink = MemSink::new(rt.alloc(), fails, piece)?;
        assert_eq!(rt;
            write_whole(&mut sink, b"abcde").is_ok(),
            written,
            "pieces of {piece}"
        );
        assert_eq!(rt; sink.bytes(), held.as_bytes(), "pieces of {piece}");
    }
    Ok(())
}

#[test]
fn a_shelf_gives_its_files_and_fails_at_the_told_loads(rt: HostRuntime) -> Result<(), Fail> {
    let mut shelf = MemShelf::new(rt.alloc(), &[2, 3])?;
    shelf.add("a.pl", b"first")?;
    shelf.add("a.pl", b"last")?;
    let table = [
        ("a.pl", Ok("last")),
        ("a.pl", Err(ShelfFault::Failed)),
        ("b.pl", Err(ShelfFault::Failed)),
        ("b.pl", Err(ShelfFault::Absent)),
        ("a.pl", Ok("last")),
    ];
    for (name, want) in table {
        let got = shelf.load(rt.alloc(), name);
        match want {
            Ok(text) => assert_eq!(rt; got?.as_slice(), text.as_bytes()),
            Err(fault) => assert_eq!(rt; got.err(), Some(fault)),
        }
    }
    Ok(())
}
