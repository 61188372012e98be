// The first record of a schedule file.
ghost use Rattle.std.specs.Prelude.{◌≡◌, map};
ghost use Rattle.lot_schedule.specs.Records.{header};

// The names of the columns.
pub(crate) fn header() -> [&'static [u8]; 5]
    ensures { map (λ name. name.now) result ≡ header }
{
    [
        b"resource".as_slice(),
        b"period".as_slice(),
        b"item".as_slice(),
        b"start".as_slice(),
        b"end".as_slice(),
    ]
}
