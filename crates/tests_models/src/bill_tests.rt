use bill::{BillLines, BoundFault, CycleFault, Need, Ranking, Tables, Totals, is_bill};
use lot_sizing::limits::{MAX_BILL_LINES, MAX_ITEMS, MAX_TOTAL};
use std::alloc::{AllocError, Global};
use std::test::Fail;

// Lines of components and quantities.
fn needs_of(alloc: Global, lines: &[(u32, u64)]) -> Result<Vec<Need>, AllocError> {
    let mut list = Vec::new(alloc);
    for (item, quantity) in lines {
        list.push(Need {
            item: *item,
            quantity: *quantity,
        })?;
    }
    Ok(list)
}

fn bill(alloc: Global, lines: &[&[(u32, u64)]]) -> Result<Vec<Vec<Need>>, AllocError> {
    let mut all = Vec::new(alloc);
    for needs in lines {
        all.push(needs_of(alloc, *needs)?)?;
    }
    Ok(all)
}

// The first item on a cycle, or else the first item past the bound, or else the first item's total.
fn judged(
    alloc: Global,
    lists: &[Vec<Need>],
    asked: &[u64],
    there: &[u64],
) -> Result<(Option<u32>, Option<u32>, u64), Fail> {
    let mut lent: Vec<&[Need]> = Vec::new(alloc);
    for needs in lists {
        lent.push(needs)?;
    }
    if lent.is_empty() || !is_bill(&lent) {
        return Err("no bill".into());
    }
    let lines = BillLines::of(lent);
    if asked.len() != lines.items() as usize || there.len() != lines.items() as usize {
        return Err("other numbers of items".into());
    }
    match Ranking::of(alloc, &lines)?.into_ranks() {
        Ok(ranks) => {
            let tables = Tables::of(alloc, lines.items())?;
            match Totals::of(tables, &lines, asked, there, &ranks) {
                Ok(totals) => Ok((None, None, totals.total(1))),
                Err(BoundFault { item }) => Ok((None, Some(item), 0)),
            }
        }
        Err(CycleFault { item }) => Ok((Some(item), None, 0)),
    }
}

fn verdict(
    alloc: Global,
    lines: &[&[(u32, u64)]],
    asked: &[u64],
    there: &[u64],
) -> Result<(Option<u32>, Option<u32>, u64), Fail> {
    let lists = bill(alloc, lines)?;
    judged(alloc, &lists, asked, there)
}

#[test]
fn bills_are_judged(rt: HostRuntime) -> Result<(), Fail> {
    let alloc = rt.alloc();
    // an item alone
    assert_eq!(rt; verdict(alloc, &[&[]], &[10], &[3])?, (None, None, 7));
    // two items that need each other
    assert_eq!(rt;
        verdict(alloc, &[&[(2, 1)], &[(1, 1)]], &[0, 0], &[0, 0])?,
        (Some(1), None, 0)
    );
    // an item that needs itself, below one that doesn't
    assert_eq!(rt;
        verdict(alloc, &[&[(2, 1)], &[(2, 3)]], &[0, 0], &[0, 0])?,
        (Some(2), None, 0)
    );
    // legs in tables, in sets of tables
    assert_eq!(rt;
        verdict(
            alloc,
            &[&[], &[(1, 4)], &[(2, 2), (1, 1)]],
            &[5, 1, 10],
            &[2, 0, 1]
        )?,
        (None, None, 5 + 4 * (1 + 2 * 9) + 9 - 2)
    );
    // a chain in which the fourth item is past the bound
    assert_eq!(rt;
        verdict(
            alloc,
            &[&[(2, 1_000_000)], &[(3, 1_000_000)], &[(4, 1_000_000)], &[]],
            &[1, 0, 0, 0],
            &[0, 0, 0, 0]
        )?,
        (None, Some(4), 0)
    );
    // the same, where the opening stock takes the demand away: the weight is past the bound
    assert_eq!(rt;
        verdict(
            alloc,
            &[&[(2, 1_000_000)], &[(3, 1_000_000)], &[(4, 1_000_000)], &[]],
            &[1, 0, 0, 0],
            &[1, 0, 0, 0]
        )?,
        (None, Some(4), 0)
    );
    Ok(())
}

// As many items as there may be, each of which takes one unit of the next, and the lines of the last.
fn chain(alloc: Global, last: &[(u32, u64)]) -> Result<Vec<Vec<Need>>, AllocError> {
    let mut all = Vec::new(alloc);
    for item in 1..MAX_ITEMS {
        all.push(needs_of(alloc, &[(item + 1, 1)])?)?;
    }
    all.push(needs_of(alloc, last)?)?;
    Ok(all)
}

// A number for the first item and one for the last, and 0 for the others.
fn numbers(alloc: Global, first: u64, last: u64) -> Result<Vec<u64>, AllocError> {
    let mut list = Vec::new(alloc);
    list.push(first)?;
    for _ in 2..MAX_ITEMS {
        list.push(0)?;
    }
    list.push(last)?;
    Ok(list)
}

// The verdict on a chain, where so much of its first item and of its last is asked for.
fn chain_verdict(
    alloc: Global,
    lines: &[(u32, u64)],
    first: u64,
    last: u64,
) -> Result<(Option<u32>, Option<u32>, u64), Fail> {
    let there = numbers(alloc, 0, 0)?;
    let asked = numbers(alloc, first, last)?;
    let lists = chain(alloc, lines)?;
    judged(alloc, &lists, &asked, &there)
}

#[test]
fn the_longest_bill_is_judged(rt: HostRuntime) -> Result<(), Fail> {
    let alloc = rt.alloc();
    assert_eq!(rt;
        chain_verdict(alloc, &[], MAX_TOTAL, 0)?,
        (None, None, MAX_TOTAL)
    );
    // past the bound at the last item
    assert_eq!(rt;
        chain_verdict(alloc, &[], MAX_TOTAL, 1)?,
        (None, Some(MAX_ITEMS), 0)
    );
    // on a cycle at the last item
    assert_eq!(rt;
        chain_verdict(alloc, &[(MAX_ITEMS, 1)], 0, 0)?,
        (Some(MAX_ITEMS), None, 0)
    );
    // all on one cycle
    assert_eq!(rt; chain_verdict(alloc, &[(1, 1)], 0, 0)?, (Some(1), None, 0));
    Ok(())
}

// As many lines as there may be, each of two units of the first item.
fn most_lines(alloc: Global) -> Result<Vec<Need>, AllocError> {
    let mut needs = Vec::new(alloc);
    for _ in 0..MAX_BILL_LINES {
        needs.push(Need {
            item: 1,
            quantity: 2,
        })?;
    }
    Ok(needs)
}

#[test]
fn the_most_lines_are_counted(rt: HostRuntime) -> Result<(), Fail> {
    let alloc = rt.alloc();
    let needs = most_lines(alloc)?;
    let lists = vec![in alloc; Vec::new(alloc), needs]?;
    let found = judged(alloc, &lists, &[5, 3], &[0, 0])?;
    assert_eq!(rt; found, (None, None, 5 + 3 * 800));
    Ok(())
}

#[test]
fn faults_are_written(rt: HostRuntime) -> Result<(), Fail> {
    let alloc = rt.alloc();
    let cycle = CycleFault { item: 4 };
    let bound = BoundFault { item: 4 };
    assert_eq!(rt;
        cycle.to_string(alloc)?.as_str(),
        "item 4 is a component of itself"
    );
    assert_eq!(rt;
        bound.to_string(alloc)?.as_str(),
        "the total or a weight of item 4 is too large"
    );
    Ok(())
}
