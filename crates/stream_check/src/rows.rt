// The rows of a certificate's cuts, each cut read from its lines and let go.
ghost use Rattle.std.specs.Prelude.{◌≡◌, ℕ, ◌+◌, ◌++◌, IfOk, List, length};
ghost use Rattle.std.specs.List.{All};
ghost use Rattle.lot_sizing.specs.Plan.{Plan, IsFeasible};
ghost use Rattle.echelon.specs.Weights.{IsExplosionOf};
ghost use Rattle.lin_rows.specs.Columns.{IsColumn, value_in};
ghost use Rattle.lin_rows.specs.Combining.{AllHold, AreOfProblem};
ghost use Rattle.lin_rows.specs.Rows.{HoldsIn, whole_point};
ghost use Rattle.cert_lines.specs.Limits.{IsVersion};
ghost use Rattle.cert_lines.specs.Shapes.{CutShape};
ghost use Rattle.certificate.specs.Values.{Values, all_cut_values, cut_values};
ghost use Rattle.cert_meaning.specs.Laws.{HoldAtPlans};
ghost use Rattle.cert_checker.specs.Checks.{HaveGoodRows, first_line};
ghost use Rattle.cert_stream.specs.Reader.{IsSound};
ghost use Rattle.stream_check.specs.Passes.{Gives, HasLeft, IsStep};
ghost use Rattle.stream_check.specs.Rows.{CutIsRefused, CutsAreRefused, IsRowOf};

use crate::StreamFault;
use crate::units::{CertText, read_cut};
use cert_checker::cut_row_in;
use cert_meaning::cut_rows_go_on;
use cert_stream::LineReader;
use echelon::Explosion;
use lin_rows::Row;
use lot_io::Shelf;
use lot_model::Instance;

// The row of the next cut, which is made of the rows of the earlier ones.
fn read_row<S: Shelf>(
    instance: &Instance,
    explosion: &Explosion,
    earlier: &[Row],
    reader: &mut LineReader,
    shelf: &mut S,
    text: CertText<'_>,
) -> Result<Row, StreamFault>
    requires explosion { IsExplosionOf instance.now explosion.now }
    requires earlier { AreOfProblem instance.now earlier.now }
    requires sound { IsSound reader.old }
    requires version { IsVersion text.version }
    ensures holds { IfOk result (λ row. (p : Plan) → IsFeasible instance.now p
        → AllHold (whole_point (value_in p)) earlier.now → HoldsIn p row) }
    ensures columns_exist { IfOk result (λ row.
        All (λ a. IsColumn instance.now a.column) row.terms) }
    ensures awaited { (cut : CutShape) (ls : Values)
        → HasLeft text.entry (S.shown shelf.old) reader.old (cut_values cut ++ ls)
        → Gives (λ row. IsRowOf instance.now earlier.now cut row
        × (reader.new.number ≡ reader.old.number + length (cut_values cut))
        × HasLeft text.entry (S.shown shelf.new) reader.new ls)
        (CutIsRefused instance.now earlier.now cut reader.old.number) result }
    ensures step { IsStep text.entry.name.now (S.shown shelf.old) (S.shown shelf.new) reader.old
        reader.new result }
{
    let line = reader.number;
    let cut = read_cut(reader, shelf, text)?;
    Ok(cut_row_in(text.alloc, instance, explosion, earlier, &cut, line)?)
}

// The rows of so many cuts, in their order.
pub fn read_rows<S: Shelf>(
    instance: &Instance,
    explosion: &Explosion,
    reader: &mut LineReader,
    shelf: &mut S,
    text: CertText<'_>,
    count: u32,
) -> Result<Vec<Row>, StreamFault>
    requires explosion { IsExplosionOf instance.now explosion.now }
    requires sound { IsSound reader.old }
    requires version { IsVersion text.version }
    requires first { reader.old.number ≡ first_line }
    ensures hold { IfOk result (λ rows. HoldAtPlans instance.now rows.items) }
    ensures columns_exist { IfOk result (λ rows. AreOfProblem instance.now rows.items) }
    ensures awaited { (cuts : List CutShape) (ls : Values) → length cuts ≡ count
        → HasLeft text.entry (S.shown shelf.old) reader.old (all_cut_values cuts ++ ls)
        → Gives (λ rows. HaveGoodRows instance.now cuts rows.items
        × (reader.new.number ≡ first_line + length (all_cut_values cuts))
        × HasLeft text.entry (S.shown shelf.new) reader.new ls)
        (CutsAreRefused instance.now cuts) result }
    ensures step { IsStep text.entry.name.now (S.shown shelf.old) (S.shown shelf.new) reader.old
        reader.new result }
{
    cut_rows_go_on();
    let mut rows = Vec::new(text.alloc);
    for _ in 0..count {
        let row = read_row(instance, explosion, &rows, reader, shelf, text)?;
        rows.push(row)?;
    }
    Ok(rows)
}
