// Marks, a bit for each place.
ghost use Rattle.std.specs.Prelude.{◌≡◌, ◌<◌, ◌/◌, ℕ, false, length};
ghost use Rattle.tableau.specs.Held.{IsClear};

// Whether a place is marked.
pub fn is_marked(marks: &[u64], place: usize) -> bool
    requires { place / 64 < length marks.now }
    ensures { result ≡ false → IsClear marks.now place }
{
    (marks[place / 64] >> (place % 64)) & 1 == 1
}

// Marks a place.
pub fn mark(marks: &mut Vec<u64>, place: usize)
    requires { place / 64 < length marks.old.items }
    ensures size { length marks.new.items ≡ length marks.old.items }
    ensures kept { (other : ℕ) → IsClear marks.new.items other → IsClear marks.old.items other }
    ensures here { IsClear marks.new.items place → ⊥ }
{
    let word = place / 64;
    marks[word] = marks[word] | 1 << (place % 64);
}
