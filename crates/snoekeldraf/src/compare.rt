// The comparison of two shift files.
ghost use Rattle.std.specs.Prelude.{◌≡◌};
ghost use Rattle.shift_compare.specs.Comparing.{Comparison, comparison};

// The first file's refusal, the second's, 36 if a list is longer than its buffer, else the three lists and their lengths.
pub fn shift_compare(
    first: &[u8],
    second: &[u8],
    only_first: &mut [u32],
    only_second: &mut [u32],
    differ: &mut [u32],
    first_count: &mut u32,
    second_count: &mut u32,
    differ_count: &mut u32,
    file: &mut u32,
    row: &mut u32,
) -> u32
    ensures { ◌≡◌ {A = Comparison} (record {
      finding = record {
        number = result;
        file = file.new;
        row = row.new;
        first = first_count.new;
        second = second_count.new;
        differ = differ_count.new;
      };
      first = only_first.new;
      second = only_second.new;
      differ = differ.new;
    })
        (comparison first.now second.now only_first.old only_second.old differ.old) }
{
    let compared = shift_compare::compare(first, second, only_first, only_second, differ);
    let finding = shift_compare::said(compared);
    *first_count = finding.first as u32;
    *second_count = finding.second as u32;
    *differ_count = finding.differ as u32;
    *file = finding.file as u32;
    *row = finding.row as u32;
    finding.number as u32
}
