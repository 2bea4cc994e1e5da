// The comparison of two shift files.
ghost use Rattle.std.specs.Prelude.{◌≡◌};
ghost use Rattle.shift_compare.specs.Comparing.{Comparison, comparison};

// The first file's refusal, the second's, 36 if a list is longer than its buffer, else the three lists and their lengths.
#[unsafe(no_mangle)]
pub extern "C" fn shift_compare(
    first: &[u8],
    second: &[u8],
    only_first: &mut [u32],
    only_second: &mut [u32],
    differ: &mut [u32],
    first_count: &mut u32,
    second_count: &mut u32,
    differ_count: &mut u32,
    file: &mut u32,
    row: &mut u32,
) -> u32
    ensures { ◌≡◌ {A = Comparison} (record {
      finding = record {
        number = result;
        file = file.new;
        row = row.new;
        first = first_count.new;
        second = second_count.new;
        differ = differ_count.new;
      };
      first = only_first.new;
      second = only_second.new;
      differ = differ.new;
    })
        (comparison first.now second.now only_first.old only_second.old differ.old) }
{
    snoekeldraf::compare::shift_compare(
        first,
        second,
        only_first,
        only_second,
        differ,
        first_count,
        second_count,
        differ_count,
        file,
        row,
    )
}
