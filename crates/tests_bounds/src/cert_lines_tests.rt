ghost use Rattle.cert_lines.specs.Limits.{IsVersion};

use cert_lines::{
    CertLine, Claim, Cut, HeadLine, LineFault, Part, add_group_line, add_list_line, read_head,
    read_line,
};
use lin_rows::{Column, RowName};
use std::alloc::Global;
use std::process::Abort;

fn part(row: RowName, times: i128) -> Part {
    Part { row, times }
}

#[test]
fn first_lines(rt: HostRuntime) {
    let most = u128::MAX / 2;
    for (place, line, head) in [
        (1u32, "lotcert 1", Some(HeadLine::Mark(1))),
        (1, "lotcert 2", Some(HeadLine::Mark(2))),
        (1, "lotcert 3", Some(HeadLine::Mark(3))),
        (1, "lotcert 4", None),
        (1, "lotcert 0", None),
        (1, "lotcert 1 ", None),
        (1, "claim infeasible", None),
        (
            2,
            "claim infeasible",
            Some(HeadLine::Claim(Claim::Infeasible)),
        ),
        (
            2,
            "claim optimal 23",
            Some(HeadLine::Claim(Claim::Optimal(23))),
        ),
        (2, "claim bound 0", Some(HeadLine::Claim(Claim::Bound(0)))),
        (
            2,
            "claim bound 170141183460469231731687303715884105727",
            Some(HeadLine::Claim(Claim::Bound(most))),
        ),
        (
            2,
            "claim bound 170141183460469231731687303715884105728",
            None,
        ),
        (2, "claim optimal 023", None),
        (2, "claim optimal ", None),
        (2, "claim optimal -1", None),
        (2, "claim  optimal 1", None),
        (2, "", None),
        (3, "cuts 0", Some(HeadLine::Cuts(0))),
        (3, "cuts 20000", Some(HeadLine::Cuts(20_000))),
        (3, "cuts 20001", None),
        (3, "cuts 1 ", None),
    ] {
        if place < 1 || place > 3 {
            panic!(rt; "no such line");
        }
        assert!(rt; read_head(place, line.as_bytes()) == head);
    }
}

// The part of a line.
fn part_of(alloc: Global, text: &str) -> Option<Part> {
    match read_line(alloc, text.as_bytes(), 1) {
        Ok(CertLine::Part(part)) => Some(part),
        _ => None,
    }
}

#[test]
fn parts_with_their_signs(rt: HostRuntime) {
    let alloc = rt.alloc();
    assert!(rt; part_of(alloc, "part balance 2 3 -17") == Some(part(RowName::Balance(2, 3), -17)));
    assert!(rt; part_of(alloc, "part endmin 2 5") == Some(part(RowName::EndMin(2), 5)));
    assert!(rt;
        part_of(alloc, "part cut 4294967295 0") == Some(part(RowName::Cut(4_294_967_295), 0))
    );
    for text in [
        "part cut 4294967296 0",
        "part endmin 2 -0",
        "part endmin 2 +5",
        "part endmin 02 5",
        "part endmin 2  5",
        "part endmin 2 5 ",
        "part balance 2 5",
        "part floor 2 5",
        "part endmin 2 170141183460469231731687303715884105728",
    ] {
        assert!(rt; part_of(alloc, text) == None);
    }
}

// Whether a line of lists has these costs of stock.
fn has_hold(alloc: Global, text: &str, hold: &[u64]) -> bool {
    match read_line(alloc, text.as_bytes(), 1) {
        Ok(CertLine::Cut(Cut::Price { item: 2, prices })) => {
            let read: &[u64] = &prices.hold;
            read == hold
        }
        Ok(
            CertLine::Cut(
                Cut::Block {
                    item: 2,
                    potentials,
                },
            ),
        ) => {
            let read: &[u64] = &potentials.hold;
            read == hold
        }
        _ => false,
    }
}

#[test]
fn lists_with_and_without_numbers(rt: HostRuntime) {
    let alloc = rt.alloc();
    assert!(rt; has_hold(alloc, "price 2 w 1 g 2 3 h 4 5 b", [4u64, 5].as_slice()));
    assert!(rt; has_hold(alloc, "price 2 w g h b", [].as_slice()));
    assert!(rt;
        has_hold(
            alloc,
            "block 2 f 1 g h 18446744073709551615 b 4 p 0",
            [18_446_744_073_709_551_615u64].as_slice()
        )
    );
    for text in [
        "price 2 w 1 g 2 3 h b 4 5",
        "price 2 w 1 g 2 3 h 4 5 b p",
        "price 2 w 1 g 2 3 b h 4 5",
        "price 2 w 1 h 4 5 g b",
        "price 2 f 1 g 2 3 h 4 5 b",
        "block 2 f 1 g h 4 5 b 4",
        "price 2 w 18446744073709551616 g h 4 5 b",
    ] {
        assert!(rt; !has_hold(alloc, text, [4u64, 5].as_slice()));
    }
}

// The form of a line, and two of its numbers.
fn form_of(alloc: Global, text: &str) -> (u32, u64, u32) {
    match read_line(alloc, text.as_bytes(), 1) {
        Ok(CertLine::Round { divisor, parts }) => (1, divisor, parts),
        Ok(
            CertLine::Branch {
                column: Column::Y { item, period: _ },
                at,
            },
        ) => (2, at, item),
        Ok(CertLine::Linear { den: _, parts }) => (3, 0, parts),
        Ok(CertLine::Farkas { parts }) => (4, 0, parts),
        Ok(CertLine::Point) => (5, 0, 0),
        Ok(CertLine::End) => (6, 0, 0),
        Ok(CertLine::Cut(Cut::Ls { item, last, chosen })) => (
            7,
            chosen.len() as u64 + last as u64,
            item,
        ),
        Ok(_) => (8, 0, 0),
        Err(LineFault::NoForm) => (0, 0, 0),
        Err(LineFault::Memory) => (9, 0, 0),
    }
}

#[test]
fn lines_and_their_limits(rt: HostRuntime) {
    let alloc = rt.alloc();
    for (text, form) in [
        (
            "round 1000000000000000000 1000",
            (1u32, 1_000_000_000_000_000_000u64, 1000u32),
        ),
        ("round 0 2", (0, 0, 0)),
        ("round 3 1001", (0, 0, 0)),
        ("branch y 3 2 0", (2, 0, 3)),
        ("branch z 3 2 0", (0, 0, 0)),
        ("linear 2 100000", (3, 0, 100_000)),
        ("linear 0 2", (0, 0, 0)),
        ("linear -2 2", (0, 0, 0)),
        ("farkas 5", (4, 0, 5)),
        ("point", (5, 0, 0)),
        ("points", (0, 0, 0)),
        ("end", (6, 0, 0)),
        ("end ", (0, 0, 0)),
        ("", (0, 0, 0)),
        ("ls 2 3 101", (7, 6, 2)),
        ("ls 2 3 1010", (0, 0, 0)),
        ("ls 2 3 102", (0, 0, 0)),
        ("ls 2 0 ", (0, 0, 0)),
    ] {
        assert!(rt; form_of(alloc, text) == form);
    }
}

#[test]
fn lines_of_the_longest_length(rt: HostRuntime) {
    let alloc = rt.alloc();
    let mut text = String::from_str(alloc, "block 2 f g h b p").expect(&rt, "memory");
    for _ in 0..8183 {
        write!(text, " 7").expect(&rt, "memory");
    }
    assert!(rt; form_of(alloc, &text) == (8, 0, 0));
    write!(text, "7").expect(&rt, "memory");
    assert!(rt; form_of(alloc, &text) == (8, 0, 0));
    write!(text, "7").expect(&rt, "memory");
    assert!(rt; form_of(alloc, &text) == (0, 0, 0));
}

// A line of a leaf over reduced costs, written again as it was read; nothing where it has no form.
fn written_again(rt: &impl Abort, alloc: Global, line: &str, version: u32) -> String
    requires { IsVersion version }
{
    let mut text = String::new(alloc);
    let read = read_line(alloc, line.as_bytes(), version);
    match &read {
        Ok(
            CertLine::Reduced {
                den,
                parts,
                lists,
                groups,
            },
        ) => write!(text, "reduced {den} {parts} {lists} {groups}\n").expect(rt, "memory"),
        Ok(CertLine::List(list)) => add_list_line(&mut text, list).expect(rt, "memory"),
        Ok(CertLine::Group(group)) => add_group_line(&mut text, group).expect(rt, "memory"),
        _ => {}
    }
    text
}

#[test]
fn lines_of_reduced_leaves(rt: HostRuntime) {
    let alloc = rt.alloc();
    for line in [
        "reduced 18446744073709551615 100000 1000 1000",
        "reduced 0 0 0 0",
        "parts balance 2 -17 0 170141183460469231731687303715884105727",
        "parts link 1 5",
        "parts capacity 3 -1",
        "parts top 4294967295 1",
        "parts least 1 1 2 3",
        "parts late 1",
        "item 4294967295",
        "late 4294967295 18446744073709551615",
        "late 1 2 0 3",
        "late 1",
        "quantities 7",
        "late_quantities 4294967295 0 18446744073709551615",
        "late_quantities 1",
        "pair 1 0 2 170141183460469231731687303715884105727",
        "triple 1 5 2 6 3 7",
    ] {
        let text = written_again(&rt, alloc, line, 3);
        assert!(rt; text == format!(in alloc; "{line}\n").expect(&rt, "memory"));
        let older = written_again(&rt, alloc, line, 2);
        assert!(rt; older.is_empty());
    }
    for line in [
        "reduced 18446744073709551616 0 0 0",
        "reduced 1 100001 0 0",
        "reduced 1 0 1001 0",
        "reduced 1 0 0 1001",
        "reduced 1 0 0",
        "parts",
        "parts balance",
        "parts endmin 1 5",
        "parts balance 1 -0",
        "parts balance 1 5 ",
        "parts balance 4294967296 5",
        "parts balance 1 170141183460469231731687303715884105728",
        "item",
        "item 1 2",
        "item 4294967296",
        "late",
        "late 1 -2",
        "late 1 2 ",
        "late 1 2 x 3",
        "late 4294967296 2",
        "late 1 2 18446744073709551616",
        "quantities 7 1",
        "late_quantities",
        "late_quantities x 1",
        "late_quantities 1 18446744073709551616",
        "pair 1 5",
        "pair 1 0 2 170141183460469231731687303715884105728",
        "triple 1 5 2 6",
    ] {
        let text = written_again(&rt, alloc, line, 3);
        assert!(rt; text.is_empty());
    }
}
