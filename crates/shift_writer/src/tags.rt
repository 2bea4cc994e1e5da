// 33: every tag of a draft has to be zero.
ghost use Rattle.std.specs.Prelude.{◌≡◌, not};
ghost use Rattle.std.specs.Option.{option_map_or};
ghost use Rattle.status.specs.Answers.{answer};
ghost use Rattle.shift_format.specs.Format.{row_size_of};
ghost use Rattle.shift_format.specs.Inside.{EntryIn};
ghost use Rattle.shift_draft.specs.Answers.{tag_set, set_from};
ghost use Rattle.shift_writer.specs.Inside.{RowsIn};

use byte_runs::all_zero;
use shift_format::body::tag_of;
use shift_lookup::found::row_of;

// Whether the tag of row i is all zero.
fn tag_zero(file: &[u8], index: usize) -> bool
    requires { EntryIn (row_size_of file.now) file.now index }
    ensures { not result ≡ tag_set file.now index }
{
    all_zero(tag_of(file, row_of(file, index)))
}

// The first of n rows whose tag has a byte that is not zero.
pub(crate) fn first_set(file: &[u8], rows: usize) -> Option<usize>
    requires { RowsIn file.now rows }
    ensures { option_map_or (answer 33) result (answer 0 0) ≡ set_from file.now rows 0 }
{
    (0..rows).find(|i| !tag_zero(file, *i))
}
