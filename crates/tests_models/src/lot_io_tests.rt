use lot_io::{MemoryShelf, MemorySink, ReadFault, Sink, StdSink, read_file, write_file};
use std::alloc::Global;
use std::collections::BTreeMap;
use std::process::Abort;

// A shelf with no file, whose appends and fetches of these numbers fail.
fn empty_shelf(rt: &impl Abort, alloc: Global, appends: &[u64], fetches: &[u64]) -> MemoryShelf {
    MemoryShelf::new(
        alloc,
        BTreeMap::new(alloc),
        Vec::from_slice(alloc, fetches).expect(rt, "memory"),
        Vec::new(alloc),
        Vec::from_slice(alloc, appends).expect(rt, "memory"),
    )
}

fn length_of(shelf: &MemoryShelf, name: &str) -> Option<usize> {
    shelf.files.get(name).map(|bytes| bytes.len())
}

#[test]
fn files_come_back_whole(rt: HostRuntime) {
    let alloc = rt.alloc();
    let mut bytes = vec![in alloc; 7u8; 131_082].expect(&rt, "memory");
    bytes.push(b'x').expect(&rt, "memory");
    let mut shelf = empty_shelf(&rt, alloc, &[], &[]);
    assert_eq!(rt; write_file(&mut shelf, "a", bytes.as_slice()), Ok(()));
    assert_eq!(rt; (shelf.starts, shelf.appends), (1, 3));
    let read = read_file(alloc, &mut shelf, "a", 131_083).expect(&rt, "no file");
    assert!(rt; read.as_slice() == bytes.as_slice());
    assert_eq!(rt; (shelf.fetches, shelf.given), (4, 131_083));
}

#[test]
fn a_file_of_five_pieces_comes_back(rt: HostRuntime) {
    let alloc = rt.alloc();
    let bytes = vec![in alloc; 7u8; 262_145].expect(&rt, "memory");
    let mut shelf = empty_shelf(&rt, alloc, &[], &[]);
    assert_eq!(rt; write_file(&mut shelf, "a", bytes.as_slice()), Ok(()));
    assert_eq!(rt; (shelf.starts, shelf.appends, shelf.wants), (1, 5, 0));
    assert!(rt;
        read_file(alloc, &mut shelf, "a", 262_145)
            .expect(&rt, "no file")
            .as_slice()
            == bytes.as_slice()
    );
    assert_eq!(rt; (shelf.fetches, shelf.misses, shelf.faults), (6, 0, 0));
}

// The listed calls fail whatever other calls come before them.
#[test]
fn listed_calls_fail_after_others(rt: HostRuntime) {
    let alloc = rt.alloc();
    let mut shelf = MemoryShelf::new(
        alloc,
        BTreeMap::new(alloc),
        vec![in alloc; 3u64].expect(&rt, "memory"),
        vec![in alloc; 2u64].expect(&rt, "memory"),
        vec![in alloc; 4u64].expect(&rt, "memory"),
    );
    assert_eq!(rt; write_file(&mut shelf, "a", b"one"), Ok(()));
    assert!(rt; read_file(alloc, &mut shelf, "a", 9).is_ok());
    assert!(rt; write_file(&mut shelf, "a", b"two").is_err());
    assert!(rt; read_file(alloc, &mut shelf, "a", 9).is_err());
    assert_eq!(rt; write_file(&mut shelf, "b", b"three"), Ok(()));
    assert_eq!(rt; write_file(&mut shelf, "c", b"four"), Ok(()));
    assert!(rt; write_file(&mut shelf, "d", b"five").is_err());
    assert_eq!(rt; (shelf.starts, shelf.appends, shelf.fetches), (5, 4, 3));
    assert_eq!(rt; (shelf.write_faults, shelf.faults, shelf.wants), (2, 1, 0));
}

#[test]
fn a_failing_append_leaves_half_a_piece(rt: HostRuntime) {
    let alloc = rt.alloc();
    let bytes = vec![in alloc; 7u8; 131_082].expect(&rt, "memory");
    for (fails, left) in [(1u64, 32_768usize), (2, 98_304), (3, 131_077)] {
        let mut shelf = empty_shelf(&rt, alloc, &[fails], &[]);
        assert!(rt; write_file(&mut shelf, "a", bytes.as_slice()).is_err());
        assert_eq!(rt; length_of(&shelf, "a"), Some(left), "append {fails} fails");
        assert_eq!(rt; (shelf.write_faults, shelf.wants), (1, 0));
    }
}

#[test]
fn files_are_refused_by_cause(rt: HostRuntime) {
    let alloc = rt.alloc();
    let mut shelf = empty_shelf(&rt, alloc, &[], &[5]);
    assert_eq!(rt; write_file(&mut shelf, "a", b"12345"), Ok(()));
    for (name, most, want) in [
        ("b", 9u64, ReadFault::Missing),
        ("a", 4, ReadFault::TooLong),
        ("a", 0, ReadFault::TooLong),
    ] {
        assert_eq!(rt;
            read_file(alloc, &mut shelf, name, most).err(),
            Some(want),
            "{name} {most}"
        );
    }
    assert_eq!(rt;
        read_file(alloc, &mut shelf, "a", 5).err(),
        Some(ReadFault::Failed)
    );
    assert!(rt;
        read_file(alloc, &mut shelf, "a", 5)
            .expect(&rt, "no file")
            .as_slice()
            == b"12345".as_slice()
    );
    assert_eq!(rt; (shelf.misses, shelf.faults), (1, 1));
}

#[test]
fn a_failing_put_adds_half(rt: HostRuntime) {
    let alloc = rt.alloc();
    let mut sink = MemorySink::new(alloc, vec![in alloc; 2u64, 5u64].expect(&rt, "memory"));
    assert!(rt; sink.put(b"ab").is_ok());
    assert!(rt; sink.put(b"cde").is_err());
    assert!(rt; sink.put(b"f").is_ok());
    assert!(rt; sink.put(b"g").is_ok());
    assert!(rt; sink.put(b"hi").is_err());
    assert!(rt; sink.bytes.as_slice() == b"abcfgh".as_slice());
    assert_eq!(rt; (sink.puts, sink.faults, sink.wants), (5, 2, 0));
}

#[test]
fn a_writer_gets_whole_pieces(rt: HostRuntime) {
    let mut bytes: Vec<u8> = Vec::new(rt.alloc());
    let mut sink = StdSink::new(&mut bytes);
    assert!(rt; sink.put(b"two pieces ").is_ok());
    assert!(rt; sink.put(b"of text\n").is_ok());
    assert_eq!(rt; (sink.puts, sink.faults), (2, 0));
    assert!(rt; bytes.as_slice() == b"two pieces of text\n".as_slice());
}
