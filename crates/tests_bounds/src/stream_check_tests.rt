use crate::shops::best_plan;
use cert_checker::{CheckFault, Rejected, Why, check, lines_are_bytes};
use certificate::{CertTextFault, Claim, read_certificate};
use fixtures::shop;
use lot_io::MemoryShelf;
use lot_model::Instance;
use plan_rules::Plan;
use std::alloc::Global;
use std::collections::BTreeMap;
use std::process::Abort;
use stream_check::{StreamFault, check_stream, read_claim};

// No plan without a setup in the first period, none without one in the second, and with both none costs less
// than 23.
const BRANCHES: &str = "lotcert 1\nclaim optimal 23\ncuts 0\nbranch y 1 1 0\nfarkas 3\n\
    part link 1 1 1\npart path 1 10\npart balance 1 1 1\nbranch y 1 2 0\nfarkas 5\n\
    part link 1 2 1\npart path 2 10\npart balance 1 2 1\npart capacity 1 1 1\n\
    part balance 1 1 1\nlinear 1 4\npart balance 1 2 1\npart capacity 1 2 1\n\
    part path 1 10\npart path 2 11\nend\n";

// A bound of 20 by two (l,S) rows, and the claim of one more.
const BOUND: &str = "lotcert 1\nclaim bound 20\ncuts 2\nls 1 1 1\nls 1 2 01\nlinear 8 4\n\
    part balance 1 1 -8\npart capacity 1 1 2\npart cut 1 41\npart cut 2 10\nend\n";

const TOO_HIGH: &str = "lotcert 1\nclaim bound 21\ncuts 2\nls 1 1 1\nls 1 2 01\nlinear 8 4\n\
    part balance 1 1 -8\npart capacity 1 1 2\npart cut 1 41\npart cut 2 10\nend\n";

// The second branch leaves nothing to its high side; and a line after it is wrong.
const EMPTY_SIDE: &str = "lotcert 1\nclaim bound 0\ncuts 0\nbranch y 1 1 0\nlinear 1 0\n\
    branch y 1 1 1\nlinear 1 0\nlinear 1 0\nend\n";

const NO_END: &str = "lotcert 1\nclaim bound 0\ncuts 0\nbranch y 1 1 0\nlinear 1 0\n\
    branch y 1 1 1\nlinear 1 0\nlinear 1 0\nlinear 1 0\n";

// A shelf with one file.
fn shelf_with(rt: &impl Abort, alloc: Global, text: &str) -> MemoryShelf {
    let mut files = BTreeMap::new(alloc);
    let name = String::from_str(alloc, "c").expect(rt, "memory");
    let bytes = Vec::from_slice(alloc, text.as_bytes()).expect(rt, "memory");
    let inserted: Result<_, _> = files.insert(name, bytes);
    inserted.expect(rt, "memory");
    MemoryShelf::new(
        alloc,
        files,
        Vec::new(alloc),
        Vec::new(alloc),
        Vec::new(alloc),
    )
}

// What is found of a text that is read as a whole; one of more than 1,000 bytes isn't tried.
fn whole(
    alloc: Global,
    instance: &Instance,
    text: &str,
    plan: Option<&Plan>,
) -> Result<Claim, StreamFault> {
    lines_are_bytes();
    let bytes = text.as_bytes();
    if bytes.len() > 1000 {
        return Err(StreamFault::TooLong);
    }
    match read_certificate(alloc, bytes) {
        Ok(certificate) => match check(alloc, instance, &certificate, plan) {
            Ok(()) => Ok(certificate.claim),
            Err(CheckFault::Rejected(rejected)) => Err(StreamFault::Rejected(rejected)),
            Err(CheckFault::Memory) => Err(StreamFault::Memory),
        },
        Err(fault) => Err(StreamFault::Text(fault)),
    }
}

// A refusal.
fn refusal(line: u64, why: Why) -> Result<Claim, StreamFault> {
    Err(StreamFault::Rejected(Rejected { line, why }))
}

// What is found of a text that is fetched, with the plan that makes 5 and 5, and of one that is read as a whole.
fn both_answers(
    rt: &impl Abort,
    alloc: Global,
    text: &str,
) -> (Result<Claim, StreamFault>, Result<Claim, StreamFault>) {
    let instance = shop(alloc).expect(rt, "an instance");
    let plan = best_plan(rt, alloc);
    let mut shelf = shelf_with(rt, alloc, text);
    let found = check_stream(alloc, &instance, &mut shelf, "c", Some(&plan));
    (found, whole(alloc, &instance, text, Some(&plan)))
}

#[test]
fn answers_are_those_of_the_whole(rt: HostRuntime) {
    let alloc = rt.alloc();
    for (text, want) in [
        (BRANCHES, Ok(Claim::Optimal(23))),
        (BOUND, Ok(Claim::Bound(20))),
        (TOO_HIGH, refusal(6, Why::Short { says: 20 })),
        (EMPTY_SIDE, refusal(6, Why::Range)),
        (NO_END, Err(StreamFault::Text(CertTextFault::Shape(9)))),
    ] {
        let (found, of_whole) = both_answers(&rt, alloc, text);
        assert_eq!(rt; found, want);
        assert_eq!(rt; found, of_whole);
    }
}

// An optimal cost that is claimed without a plan.
#[test]
fn an_optimal_cost_comes_with_its_plan(rt: HostRuntime) {
    let instance = shop(rt.alloc()).expect(&rt, "an instance");
    let found = whole(rt.alloc(), &instance, BRANCHES, None);
    assert_eq!(rt; found, refusal(2, Why::PlanMissing));
}

// What a file of the bound claims, with the bytes given by then, and what is found of it thereafter, with all bytes given.
fn claim_and_check(
    rt: &impl Abort,
    alloc: Global,
) -> (
    (Result<Claim, StreamFault>, u64),
    (Result<Claim, StreamFault>, u64),
) {
    let instance = shop(alloc).expect(rt, "an instance");
    let mut shelf = shelf_with(rt, alloc, BOUND);
    let claim = (read_claim(alloc, &mut shelf, "c"), shelf.given);
    let found = check_stream(alloc, &instance, &mut shelf, "c", None);
    (claim, (found, shelf.given))
}

// Each pass fetches each byte once.
#[test]
fn a_file_is_fetched_twice(rt: HostRuntime) {
    let size = BOUND.len() as u64;
    let (claim, found) = claim_and_check(&rt, rt.alloc());
    assert_eq!(rt; claim, (Ok(Claim::Bound(20)), size));
    assert_eq!(rt; found, (Ok(Claim::Bound(20)), 3 * size));
}

// A bound of 20 by the most cuts that there may be, all but the last of which say the same: 36 bytes, 9 for each of
// those, and 97.
fn most_cuts(rt: &impl Abort, alloc: Global) -> String {
    let mut text = String::from_str(alloc, "lotcert 1\nclaim bound 20\ncuts 20000\n").expect(
        rt, "memory",
    );
    for _ in 0..19_999u32 {
        text.push_str("ls 1 1 1\n").expect(rt, "memory");
    }
    text.push_str("ls 1 2 01\nlinear 8 4\npart balance 1 1 -8\npart capacity 1 1 2\n")
        .expect(rt, "memory");
    text.push_str("part cut 1 41\npart cut 20000 10\nend\n")
        .expect(rt, "memory");
    text
}

// What is found of it, its length, and the bytes given.
fn most_cuts_found(rt: &impl Abort, alloc: Global) -> (Result<Claim, StreamFault>, usize, u64) {
    let text = most_cuts(rt, alloc);
    let instance = shop(alloc).expect(rt, "an instance");
    let mut shelf = shelf_with(rt, alloc, text.as_str());
    let found = check_stream(alloc, &instance, &mut shelf, "c", None);
    (found, text.len(), shelf.given)
}

// It is fetched in three pieces of at most 65,536 bytes.
#[test]
fn a_file_of_several_pieces_is_fetched_twice(rt: HostRuntime) {
    let (found, size, given) = most_cuts_found(&rt, rt.alloc());
    assert_eq!(rt; found, Ok(Claim::Bound(20)));
    assert_eq!(rt; (size, given), (180_124, 2 * 180_124));
}

#[test]
fn a_fault_of_the_text_is_told_with_its_line(rt: HostRuntime) {
    let alloc = rt.alloc();
    for (fault, words) in [
        (
            CertTextFault::Header(3),
            "line 3: absent, or not as a certificate begins",
        ),
        (
            CertTextFault::Line(5),
            "line 5: no line feed, too long, or no form of a line",
        ),
        (
            CertTextFault::Shape(6),
            "line 6: another line is needed, or none",
        ),
        (
            CertTextFault::Deep(2004),
            "line 2004: too many branches on a path",
        ),
    ] {
        let told = format!(in alloc; "{}", StreamFault::Text(fault)).expect(&rt, "memory");
        let want = format!(in alloc; "the text is no certificate's: {words}").expect(&rt, "memory");
        assert_eq!(rt; told.as_str(), want.as_str());
    }
}
