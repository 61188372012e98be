use whole_numbers::{NumberFault, read_whole};

#[test]
fn whole_numbers_are_read(rt: HostRuntime) {
    let most = u128::MAX;
    let cases: [(&[u8], u128, Result<u128, NumberFault>); 12] = [
        (b"", most, Err(NumberFault::NotDigits)),
        (b"0", 0, Ok(0)),
        (b"00", most, Err(NumberFault::LeadingZero)),
        (b"007", most, Err(NumberFault::LeadingZero)),
        (b"00x", most, Err(NumberFault::NotDigits)),
        (b"+1", most, Err(NumberFault::NotDigits)),
        (b"1 ", most, Err(NumberFault::NotDigits)),
        (b"10", 9, Err(NumberFault::TooLarge)),
        (b"10", 10, Ok(10)),
        (b"340282366920938463463374607431768211455", most, Ok(most)),
        (
            b"340282366920938463463374607431768211456",
            most,
            Err(NumberFault::TooLarge),
        ),
        (
            b"99999999999999999999999999999999999999999999999999",
            most,
            Err(NumberFault::TooLarge),
        ),
    ];
    for (text, most, want) in cases {
        assert_eq!(rt; read_whole(text, most), want, "{text:?}");
    }
}
