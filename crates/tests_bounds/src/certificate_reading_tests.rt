use certificate::{is_writable, longest, nodes, read_certificate, write_certificate};
use std::alloc::Global;
use std::process::Abort;

// A tree of two branches on setups.
const BRANCHES: &str = "lotcert 1\nclaim optimal 23\ncuts 0\nbranch y 1 1 0\nfarkas 3\n\
    part link 1 1 1\npart path 1 10\npart balance 1 1 1\nbranch y 1 2 0\nfarkas 5\n\
    part link 1 2 1\npart path 2 10\npart balance 1 2 1\npart capacity 1 1 1\n\
    part balance 1 1 1\nlinear 1 4\npart balance 1 2 1\npart capacity 1 2 1\n\
    part path 1 10\npart path 2 11\nend\n";

// Two inequalities.
const INEQUALITIES: &str = "lotcert 1\nclaim bound 20\ncuts 2\nls 1 1 1\nls 1 2 01\nlinear 8 4\n\
    part balance 1 1 -8\npart capacity 1 1 2\npart cut 1 41\npart cut 2 10\nend\n";

// A block row.
const BLOCK: &str = "lotcert 1\nclaim optimal 28\ncuts 1\n\
    block 1 f 100 20 g 0 0 h 1 1 b 2 2 p 28 28\nlinear 1 1\npart cut 1 1\nend\n";

// A price row.
const PRICES: &str = "lotcert 1\nclaim optimal 106\ncuts 1\n\
    price 1 w 25 1 g 0 0 h 1 0 b 0 0\nlinear 1 1\npart cut 1 1\nend\n";

// A sum of rows, rounded.
const ROUNDED: &str = "lotcert 1\nclaim optimal 23\ncuts 2\nls 1 1 1\nround 10 4\n\
    part balance 1 1 1\npart balance 1 2 1\npart link 1 2 1\npart capacity 1 1 1\nlinear 1 4\n\
    part balance 1 2 1\npart capacity 1 2 1\npart cut 1 5\npart cut 2 11\nend\n";

// Rows that are known from version 2 on.
const LOTS: &str = "lotcert 2\nclaim infeasible\ncuts 0\nfarkas 2\npart late 1 1 1\n\
    part least 1 1 -1\nend\n";

// A cut of each kind, of which some have lists without numbers.
const CUTS: &str = "lotcert 1\nclaim infeasible\ncuts 4\nls 1 2 01\nround 10 2\n\
    part balance 1 1 -8\npart cut 1 41\nblock 1 f 100 20 g 0 0 h 1 1 b 2 2 p 28 28\n\
    price 3 w 25 1 g h 1 b 0 0\npoint\nend\n";

// Leaves over reduced costs, with lists and groups of each kind, and with nothing.
const REDUCED: &str = "lotcert 3\nclaim optimal 23\ncuts 1\nls 1 1 1\nbranch y 1 1 0\n\
    reduced 4 2 2 7\npart cut 1 -3\npart late 1 2 5\nparts balance 1 -1 0 7\n\
    parts capacity 2\nitem 1\nlate 2 3 0 4\nlate 1\nquantities 2\nlate_quantities 2 1 0 5\n\
    pair 1 0 2 15\ntriple 3 1 2 2 1 3\n\
    reduced 0 0 0 0\nend\n";

// A bound by a leaf without parts.
const BOUND: &str = "lotcert 1\nclaim bound 20\ncuts 0\nlinear 8 0\nend\n";

// The nodes of a text's tree, the branches on its longest path, and whether it can be written and is, byte for byte; None where
// it isn't read.
fn written(rt: &impl Abort, alloc: Global, text: &str) -> Option<(u64, u64, bool, bool)> {
    let Ok(read) = read_certificate(alloc, text.as_bytes()) else {
        return None;
    };
    let bytes = write_certificate(alloc, &read).expect(rt, "memory");
    Some((
        nodes(&read.tree),
        longest(&read.tree),
        is_writable(&read),
        bytes.as_slice() == text.as_bytes(),
    ))
}

#[test]
fn what_is_read_is_written(rt: HostRuntime) {
    for (text, nodes, longest) in [
        (BRANCHES, 5u64, 2u64),
        (INEQUALITIES, 1, 0),
        (BLOCK, 1, 0),
        (PRICES, 1, 0),
        (ROUNDED, 1, 0),
        (LOTS, 1, 0),
        (CUTS, 1, 0),
        (REDUCED, 3, 1),
        (BOUND, 1, 0),
    ] {
        let found = written(&rt, rt.alloc(), text);
        assert_eq!(rt; found, Some((nodes, longest, true, true)));
    }
}

// A text whose tree has so many branches on one path.
fn path_of(rt: &impl Abort, alloc: Global, branches: usize) -> String {
    let mut text = String::from_str(alloc, "lotcert 1\nclaim infeasible\ncuts 0\n").expect(
        rt, "memory",
    );
    for _ in 0..branches {
        write!(text, "branch x 1 1 0\n").expect(rt, "memory");
    }
    for _ in 0..branches {
        write!(text, "point\n").expect(rt, "memory");
    }
    write!(text, "point\nend\n").expect(rt, "memory");
    text
}

#[test]
fn paths_of_the_greatest_length(rt: HostRuntime) {
    let longest = path_of(&rt, rt.alloc(), 2000);
    let found = written(&rt, rt.alloc(), &longest);
    assert_eq!(rt; found, Some((4001, 2000, true, true)));
}
