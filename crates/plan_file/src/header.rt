// The first record of a plan file.
ghost use Rattle.std.specs.Prelude.{◌≡◌, map};
ghost use Rattle.plan_file.specs.Records.{header};

// The names of the columns.
pub(crate) fn header() -> [&'static [u8]; 6]
    ensures { map (λ name. name.now) result ≡ header }
{
    [
        b"item".as_slice(),
        b"period".as_slice(),
        b"make".as_slice(),
        b"setup".as_slice(),
        b"stock".as_slice(),
        b"backlog".as_slice(),
    ]
}
