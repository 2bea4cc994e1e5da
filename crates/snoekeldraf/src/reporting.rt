// The report on a supplier's file.
ghost use Rattle.std.specs.Prelude.{◌≡◌};
ghost use Rattle.shift_report.specs.Reporting.{Report, reporting};

// A file over 65,280 bytes is 20; the file's checks; 2; 6 if a list has fewer elements than the file has entries; else the jobs, and
// 0 or 8 for each.
pub fn shift_report(
    file: &[u8],
    ring: &[u8],
    jobs: &mut [u32],
    numbers: &mut [u8],
    count: &mut u32,
    row: &mut u32,
) -> u32
    ensures { ◌≡◌ {A = Report} (record {
      said = record { number = result; row = row.new; count = count.new };
      jobs = jobs.new;
      numbers = numbers.new;
    })
        (reporting file.now ring.now jobs.old numbers.old) }
{
    let summary = shift_report::answers::said(shift_report::report(file, ring, jobs, numbers));
    *count = summary.count as u32;
    *row = summary.row as u32;
    summary.number as u32
}
