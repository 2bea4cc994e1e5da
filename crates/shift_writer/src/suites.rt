// 10: every suite of a draft has to seal.
ghost use Rattle.std.specs.Prelude.{◌≡◌, not};
ghost use Rattle.std.specs.Option.{option_map_or};
ghost use Rattle.status.specs.Answers.{answer};
ghost use Rattle.shift_format.specs.Format.{row_size_of};
ghost use Rattle.shift_format.specs.Inside.{EntryIn};
ghost use Rattle.shift_draft.specs.Answers.{row_retired, retired_from};
ghost use Rattle.shift_writer.specs.Inside.{RowsIn};

use shift_lookup::found::row_of;

// Whether the suite of row i seals.
fn row_seals(file: &[u8], index: usize) -> bool
    requires { EntryIn (row_size_of file.now) file.now index }
    ensures { not result ≡ row_retired file.now index }
{
    let row = row_of(file, index);
    cipher::seals(row.suite)
}

// The first of n rows whose suite is retired.
pub(crate) fn first_retired(file: &[u8], rows: usize) -> Option<usize>
    requires { RowsIn file.now rows }
    ensures { option_map_or (answer 10) result (answer 0 0) ≡ retired_from file.now rows 0 }
{
    (0..rows).find(|i| !row_seals(file, *i))
}
