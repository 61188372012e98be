use crate::{LotPeriod, LotsFault, MAX_ENTRIES, MAX_PRICE, find_fault, least_price};
use std::alloc::Global;
use std::test::Fail;

// The least price of lots, each a price of a setup and of a unit, a need and a largest lot.
fn least(alloc: Global, lots: &[(u128, u128, u64, u64)]) -> Result<Option<u128>, Fail> {
    let mut list = Vec::new(alloc);
    for (setup, unit, need, largest) in lots {
        list.push(LotPeriod {
            setup: *setup,
            unit: *unit,
            need: *need,
            asked: 0,
            share: 0,
            largest: *largest,
        })?;
    }
    if find_fault(&list).is_some() {
        return Err("past the limits".into());
    }
    Ok(least_price(alloc, &list)?)
}

#[test]
fn least_prices_of_small_items(rt: HostRuntime) -> Result<(), Fail> {
    for (lots, wanted) in [
        // 5 by the end of the second period, at most 3 in each: 3 and 2, or 2 and 3
        (
            [(10u128, 2u128, 0u64, 3u64), (4, 1, 5, 3), (0, 0, 5, 9)],
            Some(21u128),
        ),
        // all in the second, which has the room
        ([(10, 2, 0, 3), (4, 1, 5, 5), (0, 0, 5, 9)], Some(9)),
        // 1 in time, the others free later
        ([(10, 2, 1, 3), (4, 1, 1, 5), (0, 0, 5, 9)], Some(12)),
        // 2 by the first can't be
        ([(10, 2, 2, 1), (4, 1, 5, 5), (0, 0, 5, 9)], None),
        // nothing to start
        ([(10, 2, 0, 1), (4, 1, 0, 5), (1, 1, 0, 9)], Some(0)),
        // a need that falls: 4 by the first, whatever is asked later
        ([(1, 1, 4, 4), (0, 0, 2, 9), (0, 0, 0, 9)], Some(5)),
    ] {
        let found = least(rt.alloc(), &lots)?;
        assert_eq!(rt; found, wanted, "{lots:?}");
    }
    Ok(())
}

// Lots of a period in which a setup costs 10 and a unit 2, of at most 5 units, of which nothing must be started.
fn lot_asked(asked: u64, share: u128) -> LotPeriod {
    LotPeriod {
        setup: 10,
        unit: 2,
        need: 0,
        asked,
        share,
        largest: 5,
    }
}

#[test]
fn what_falls_short_is_paid_by_the_unit(rt: HostRuntime) -> Result<(), Fail> {
    for (lots, wanted) in [
        // all 3 fall short in both periods: 6 and 6, where a setup and 3 units would be 16
        ([lot_asked(3, 2), lot_asked(3, 2)], Some(12u128)),
        // at 3 a unit they are made, in the first period
        ([lot_asked(3, 3), lot_asked(3, 3)], Some(16)),
        // 2 of the 7 still fall short in the first, and a second setup for them costs more than the second's share
        ([lot_asked(7, 4), lot_asked(7, 4)], Some(36)),
        // what must be started is, whatever the share
        (
            [
                LotPeriod {
                    need: 1,
                    ..lot_asked(3, 1)
                },
                lot_asked(3, 1),
            ],
            Some(16),
        ),
        // and where more is needed than is asked
        (
            [
                lot_asked(0, 9),
                LotPeriod {
                    need: 4,
                    ..lot_asked(2, 9)
                },
            ],
            Some(18),
        ),
    ] {
        if find_fault(&lots).is_some() {
            return Err("past the limits".into());
        }
        assert_eq!(rt; least_price(rt.alloc(), &lots)?, wanted, "{lots:?}");
    }
    Ok(())
}

#[test]
fn the_first_past_the_limits_is_named(rt: HostRuntime) -> Result<(), Fail> {
    let lot = LotPeriod {
        setup: MAX_PRICE,
        unit: MAX_PRICE,
        need: MAX_ENTRIES / 2 - 1,
        asked: MAX_ENTRIES / 2 - 1,
        share: MAX_PRICE,
        largest: u64::MAX,
    };
    let dear = LotPeriod {
        unit: MAX_PRICE + 1,
        need: MAX_ENTRIES / 2,
        ..lot
    };
    let late = LotPeriod {
        share: MAX_PRICE + 1,
        ..lot
    };
    let long = LotPeriod {
        need: MAX_ENTRIES / 2,
        ..lot
    };
    let wide = LotPeriod {
        asked: MAX_ENTRIES / 2,
        ..lot
    };
    assert_eq!(rt; find_fault(&[lot, lot]), None);
    assert_eq!(rt; find_fault(&[lot, dear]), Some(LotsFault::Price(2)));
    assert_eq!(rt; find_fault(&[lot, late]), Some(LotsFault::Price(2)));
    assert_eq!(rt; find_fault(&[long, dear]), Some(LotsFault::Need(1)));
    assert_eq!(rt; find_fault(&[wide, dear]), Some(LotsFault::Need(1)));
    assert_eq!(rt; find_fault(&[dear; 121]), Some(LotsFault::Periods));
    Ok(())
}

// What a quantity costs in a period by whose end so much has been started.
fn price_of(lot: &LotPeriod, made: u64, sum: u64) -> u128 {
    let setup = if made > 0 { lot.setup } else { 0 };
    let units = lot.unit.saturating_mul(u128::from(made));
    let short = lot
        .share
        .saturating_mul(u128::from(lot.asked.saturating_sub(sum)));
    setup.saturating_add(units).saturating_add(short)
}

// The least price of the lots of three periods by trying all quantities up to four in each.
fn least_of_all(lots: &[LotPeriod; 3]) -> Option<u128> {
    let mut least: Option<u128> = None;
    for tried in 0..125u64 {
        let made = [tried / 25, tried / 5 % 5, tried % 5];
        let mut price = 0u128;
        let mut sum = 0u64;
        let mut kept = true;
        for period in 0..3 {
            let lot = lots[period];
            sum = sum.saturating_add(made[period]);
            kept = kept && made[period] <= lot.largest && lot.need <= sum;
            price = price.saturating_add(price_of(&lot, made[period], sum));
        }
        if kept && least.is_none_or(|best| price < best) {
            least = Some(price);
        }
    }
    least
}

// Lots of a period by the bits of a word: small prices, a need and a largest lot of up to four units, and up to nine
// units that are asked, in half of the cases at no price.
fn lot_of(word: u64) -> LotPeriod {
    LotPeriod {
        setup: u128::from(word % 8),
        unit: u128::from(word / 8 % 4),
        need: word / 32 % 5,
        asked: word / 2048 % 10,
        share: u128::from((word / 65536 % 8).saturating_sub(3)),
        largest: word / 256 % 5,
    }
}

#[test]
fn least_prices_are_those_of_all_choices(rt: HostRuntime) -> Result<(), Fail> {
    let mut seed = 7u64;
    for _ in 0..600 {
        let mut lots = [lot_of(0); 3];
        for period in 0..3 {
            seed = seed.wrapping_mul(6_364_136_223_846_793_005).wrapping_add(1);
            lots[period] = lot_of(seed / 4_294_967_296);
        }
        if find_fault(&lots).is_some() {
            return Err("past the limits".into());
        }
        assert_eq!(rt;
            least_price(rt.alloc(), &lots)?,
            least_of_all(&lots),
            "{lots:?}"
        );
    }
    Ok(())
}
