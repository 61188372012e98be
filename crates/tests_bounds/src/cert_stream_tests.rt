use cert_lines::{CertLine, Claim, Cut, Part};
use cert_stream::{ClaimFault, LineReader, Next, Value, next_value, read_claim};
use certificate::{CertTextFault, read_certificate};
use lin_rows::RowName;
use lot_io::MemoryShelf;
use std::alloc::Global;
use std::collections::BTreeMap;
use std::process::Abort;

// A shelf with one file, whose fetches of these numbers fail.
fn shelf_with(rt: &impl Abort, alloc: Global, bytes: Vec<u8>, fails: &[u64]) -> MemoryShelf {
    let mut files = BTreeMap::new(alloc);
    let name = String::from_str(alloc, "c").expect(rt, "memory");
    let inserted: Result<_, _> = files.insert(name, bytes);
    inserted.expect(rt, "memory");
    MemoryShelf::new(
        alloc,
        files,
        Vec::from_slice(alloc, fails).expect(rt, "memory"),
        Vec::new(alloc),
        Vec::new(alloc),
    )
}

// A shelf with a file of these bytes, whose fetches don't fail.
fn shelf_of(rt: &impl Abort, alloc: Global, bytes: &[u8]) -> MemoryShelf {
    shelf_with(rt, alloc, bytes.to_vec(alloc).expect(rt, "memory"), &[])
}

// A certificate with so many cuts of 21 bytes, of this version.
fn with_cuts(rt: &impl Abort, alloc: Global, version: u32, cuts: u32) -> Vec<u8> {
    let mut text = format!(in alloc; "lotcert {version}\nclaim bound 20\ncuts {cuts}\n").expect(
        rt, "memory",
    );
    for _ in 0..cuts {
        text.push_str("ls 1 12 000000000001\n").expect(rt, "memory");
    }
    text.push_str("point\nend\n").expect(rt, "memory");
    text.into_bytes()
}

// What a text claims that is read as a whole.
fn whole_claim(alloc: Global, text: &str) -> Result<Claim, CertTextFault> {
    let certificate = read_certificate(alloc, text.as_bytes())?;
    Ok(certificate.claim)
}

// What a text claims that is fetched, and how many bytes the shelf gave, missed files and failed.
fn fetched_claim(
    rt: &impl Abort,
    alloc: Global,
    text: &str,
) -> (Result<Claim, ClaimFault>, (u64, u64, u64)) {
    let mut shelf = shelf_of(rt, alloc, text.as_bytes());
    let read = read_claim(alloc, &mut shelf, "c");
    (read, (shelf.given, shelf.misses, shelf.faults))
}

#[test]
fn small_files(rt: HostRuntime) {
    let alloc = rt.alloc();
    for (text, want) in [
        ("", Err(CertTextFault::Header(1))),
        ("lotcert 9\n", Err(CertTextFault::Header(1))),
        (
            "lotcert 1\nclaim bound 20\ncuts 0",
            Err(CertTextFault::Header(3)),
        ),
        (
            "lotcert 1\nclaim bound 20\ncuts 0\nlinear 8 0\nend\n",
            Ok(Claim::Bound(20)),
        ),
        (
            "lotcert 1\nclaim bound 20\ncuts 0\nlinear 8 0\nend",
            Err(CertTextFault::Line(5)),
        ),
        (
            "lotcert 1\nclaim infeasible\ncuts 0\npoint\nend\nend\n",
            Err(CertTextFault::Shape(6)),
        ),
        (
            "lotcert 1\nclaim infeasible\ncuts 1\npoint\nend\n",
            Err(CertTextFault::Shape(4)),
        ),
        (
            "lotcert 2\nclaim infeasible\ncuts 0\npoint\n",
            Err(CertTextFault::Shape(5)),
        ),
    ] {
        assert_eq!(rt; whole_claim(alloc, text), want);
        let (read, counts) = fetched_claim(&rt, alloc, text);
        assert_eq!(rt; read, want.map_err(|fault| ClaimFault::Text(fault)));
        assert_eq!(rt; counts, (text.len() as u64, 0, 0));
    }
}

// What a file of 5,000 cuts claims, its length and the bytes given; then what is said of a file that isn't there, and how
// often files were missed and failed.
fn long_claims(
    rt: &impl Abort,
    alloc: Global,
) -> (
    (Result<Claim, ClaimFault>, u64, u64),
    (Result<Claim, ClaimFault>, u64, u64),
) {
    let bytes = with_cuts(rt, alloc, 1, 5000);
    let size = bytes.len() as u64;
    let mut shelf = shelf_with(rt, alloc, bytes, &[]);
    let found = (read_claim(alloc, &mut shelf, "c"), size, shelf.given);
    let missing = read_claim(alloc, &mut shelf, "d");
    (found, (missing, shelf.misses, shelf.faults))
}

// 65,536 bytes end within a line.
#[test]
fn lines_cross_pieces(rt: HostRuntime) {
    let alloc = rt.alloc();
    let (found, missing) = long_claims(&rt, alloc);
    assert_eq!(rt; found, (Ok(Claim::Bound(20)), 105_045, 105_045));
    assert_eq!(rt; missing, (Err(ClaimFault::Missing), 1, 0));
}

// Two lines, bytes without a line feed, and nothing.
#[test]
fn lines_are_given_in_order(rt: HostRuntime) {
    let alloc = rt.alloc();
    let mut shelf = shelf_of(&rt, alloc, b"point\n\nend");
    let mut reader = LineReader::new(alloc).expect(&rt, "memory");
    for (want, line, number) in [
        (Next::Line, "point", 2u64),
        (Next::Line, "", 3),
        (Next::Unended, "end", 3),
        (Next::End, "", 3),
    ] {
        let Ok(next) = reader.next_line(&mut shelf, "c") else {
            panic!(rt; "not read");
        };
        assert_eq!(rt; (next, reader.number), (want, number));
        assert!(rt; reader.line.as_slice() == line.as_bytes());
    }
    assert_eq!(rt; (shelf.given, shelf.faults), (10, 0));
}

// The form of a value, and two of its numbers.
fn form_of(value: Value) -> (&'static str, i128, u32) {
    match value {
        Value::Line(CertLine::Cut(Cut::Ls { item, last, .. })) => ("ls", i128::from(item), last),
        Value::Line(
            CertLine::Part(
                Part {
                    row: RowName::Cut(cut),
                    times,
                },
            ),
        ) => ("part", times, cut),
        Value::Line(CertLine::Linear { den, parts }) => ("linear", den, parts),
        Value::Line(CertLine::Farkas { parts }) => ("farkas", 0, parts),
        Value::Line(CertLine::Point) => ("point", 0, 0),
        Value::Line(CertLine::End) => ("end", 0, 0),
        Value::Line(_) => ("other", 0, 0),
        Value::Wrong => ("wrong", 0, 0),
        Value::End => ("none", 0, 0),
    }
}

// A line of each kind, a line of none, and bytes without a line feed.
const LINES: &str =
    "ls 1 2 01\npart cut 2 -10\nlinear 8 4\nfarkas 3\npoint\nend\npart late 1 1 1\nend";

#[test]
fn values_are_given_in_order(rt: HostRuntime) {
    let alloc = rt.alloc();
    let mut shelf = shelf_of(&rt, alloc, LINES.as_bytes());
    let mut reader = LineReader::new(alloc).expect(&rt, "memory");
    for want in [
        ("ls", 1i128, 2u32),
        ("part", -10, 2),
        ("linear", 8, 4),
        ("farkas", 0, 3),
        ("point", 0, 0),
        ("end", 0, 0),
        ("wrong", 0, 0),
        ("wrong", 0, 0),
        ("none", 0, 0),
    ] {
        let Ok(value) = next_value(alloc, &mut reader, &mut shelf, "c", 1) else {
            panic!(rt; "not read");
        };
        assert!(rt; form_of(value) == want);
    }
}
