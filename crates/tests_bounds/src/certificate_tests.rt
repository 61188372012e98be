use certificate::{
    Certificate, Claim, Cut, Leaf, Part, Tree, copy_cut, copy_leaf, cut_lines_count, is_writable,
    leaf_lines_count, longest, nodes,
};
use lin_rows::{Column, RowName};
use std::alloc::Global;
use std::boxed::Box;
use std::process::Abort;

fn part(row: RowName, times: i128) -> Part {
    Part { row, times }
}

fn branch(rt: &impl Abort, alloc: Global, period: u32, low: Tree, high: Tree) -> Tree {
    Tree::Branch {
        column: Column::Y { item: 1, period },
        at: 0,
        low: Box::new(alloc, low).expect(rt, "memory"),
        high: Box::new(alloc, high).expect(rt, "memory"),
    }
}

// The nodes of a certificate's tree, the branches on its longest path, and whether it can be written.
fn shape(certificate: &Certificate) -> (u64, u64, bool) {
    (
        nodes(&certificate.tree),
        longest(&certificate.tree),
        is_writable(certificate),
    )
}

fn round_cut(rt: &impl Abort, alloc: Global) -> Cut {
    Cut::Round {
        divisor: 10,
        parts: vec![in alloc; part(RowName::Balance(1, 1), -8), part(RowName::Cut(1), 41)].expect(
            rt, "memory",
        ),
    }
}

// A certificate of one leaf and one cut.
fn small(
    rt: &impl Abort,
    alloc: Global,
    claim: Claim,
    cut: Cut,
    den: i128,
    times: i128,
) -> Certificate {
    let mut cuts = Vec::with_capacity(alloc, 1).expect(rt, "memory");
    cuts.push(cut).expect(rt, "memory");
    Certificate {
        version: 1,
        claim,
        cuts,
        tree: Tree::Leaf(Leaf::Linear {
            den,
            parts: vec![in alloc; part(RowName::Cut(1), times)].expect(rt, "memory"),
        }),
    }
}

fn round(alloc: Global, divisor: u64) -> Cut {
    Cut::Round {
        divisor,
        parts: Vec::new(alloc),
    }
}

// Whether one can be written with a rounding cut without parts.
fn is_round_writable(
    rt: &impl Abort,
    alloc: Global,
    claim: Claim,
    divisor: u64,
    den: i128,
    times: i128,
) -> bool {
    let certificate = small(rt, alloc, claim, round(alloc, divisor), den, times);
    is_writable(&certificate)
}

#[test]
fn limits_of_numbers(rt: HostRuntime) {
    let most = u128::MAX / 2;
    let tens = 1_000_000_000_000_000_000u64;
    for (claim, divisor, den, times, writable) in [
        (Claim::Optimal(most), tens, 1i128, i128::MAX, true),
        (Claim::Bound(most), 1, i128::MAX, -i128::MAX, true),
        (Claim::Optimal(most + 1), 1, 1, 1, false),
        (Claim::Bound(most + 1), 1, 1, 1, false),
        (Claim::Infeasible, 0, 1, 1, false),
        (Claim::Infeasible, tens + 1, 1, 1, false),
        (Claim::Infeasible, 1, 0, 1, false),
        (Claim::Infeasible, 1, -1, 1, false),
        (Claim::Infeasible, 1, 1, i128::MIN, false),
    ] {
        let found = is_round_writable(&rt, rt.alloc(), claim, divisor, den, times);
        assert_eq!(rt; found, writable);
    }
}

// Whether one can be written with an (l,S) cut that has so many bits.
fn is_ls_writable(rt: &impl Abort, alloc: Global, last: u32, bits: usize) -> bool {
    let cut = Cut::Ls {
        item: 1,
        last,
        chosen: vec![in alloc; true; bits].expect(rt, "memory"),
    };
    let certificate = small(rt, alloc, Claim::Infeasible, cut, 1, 1);
    is_writable(&certificate)
}

#[test]
fn limits_of_lines(rt: HostRuntime) {
    // "ls 1 16374 " and a digit for each period: 16,384 bytes where there are 16,373.
    for (last, bits, writable) in [
        (16_373u32, 16_373usize, true),
        (16_374, 16_374, false),
        (2, 3, false),
        (0, 0, false),
    ] {
        assert_eq!(rt; is_ls_writable(&rt, rt.alloc(), last, bits), writable);
    }
}

// A tree whose longest path has so many branches, each with a leaf on its low side.
fn path(rt: &impl Abort, alloc: Global, branches: u32) -> Tree {
    let mut tree = Tree::Leaf(Leaf::Point);
    for _ in 0..branches {
        tree = branch(rt, alloc, 1, Tree::Leaf(Leaf::Point), tree);
    }
    tree
}

// A certificate of a tree alone.
fn of_tree(alloc: Global, version: u32, tree: Tree) -> Certificate {
    Certificate {
        version,
        claim: Claim::Infeasible,
        cuts: Vec::new(alloc),
        tree,
    }
}

#[test]
fn limits_of_paths(rt: HostRuntime) {
    let alloc = rt.alloc();
    let certificate = of_tree(alloc, 1, path(&rt, alloc, 2000));
    assert_eq!(rt; shape(&certificate), (4001, 2000, true));
}

#[test]
fn one_more_branch_is_too_many(rt: HostRuntime) {
    let alloc = rt.alloc();
    let tree = branch(
        &rt,
        alloc,
        1,
        path(&rt, alloc, 2000),
        Tree::Leaf(Leaf::Point),
    );
    let deep = of_tree(alloc, 1, tree);
    assert!(rt; !is_writable(&deep));
}

// How many lines a rounding cut of two parts has, and its copy.
fn lines_of_round(rt: &impl Abort, alloc: Global) -> (u64, u64) {
    let cut = round_cut(rt, alloc);
    let other = copy_cut(alloc, &cut).expect(rt, "memory");
    (cut_lines_count(&cut), cut_lines_count(&other))
}

// A leaf of a row that version 2 has alone.
fn newer(rt: &impl Abort, alloc: Global) -> Leaf {
    Leaf::Farkas {
        parts: vec![in alloc; part(RowName::Least(1, 2), 1)].expect(rt, "memory"),
    }
}

// How many lines it has, and whether a certificate of a version can be written with its copy.
fn leaf_in(rt: &impl Abort, alloc: Global, version: u32) -> (u64, bool) {
    let leaf = newer(rt, alloc);
    let lines = leaf_lines_count(&leaf);
    let certificate = of_tree(
        alloc,
        version,
        Tree::Leaf(copy_leaf(alloc, &leaf).expect(rt, "memory")),
    );
    (lines, is_writable(&certificate))
}

#[test]
fn lines_and_copies(rt: HostRuntime) {
    let alloc = rt.alloc();
    assert_eq!(rt; lines_of_round(&rt, alloc), (3, 3));
    for (version, writable) in [(0u32, false), (1, false), (2, true), (3, true), (4, false)] {
        assert_eq!(rt; leaf_in(&rt, alloc, version), (2, writable));
    }
}
