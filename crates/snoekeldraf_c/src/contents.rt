// The table of contents, by row number.
ghost use Rattle.std.specs.Prelude.{◌≡◌};
ghost use Rattle.shift_reader.specs.Contents.{HeaderFields, header_answer, row_answer};
ghost use Rattle.snoekeldraf.specs.Fields.{InFields, in_fields};

// 20 to 24 alone, then the file's edition and row count; both are 0 after every status but 0.
#[unsafe(no_mangle)]
pub extern "C" fn shift_rows(file: &[u8], edition: &mut u32, count: &mut u32) -> u32
    ensures { ◌≡◌ {A = HeaderFields} (record { status = result; edition = edition.new; count = count.new })
        (header_answer file.now) }
{
    snoekeldraf::contents::shift_rows(file, edition, count)
}

// 20 to 24 alone, 32 if there is no such row, then its nine fields; all are 0 after every status but 0. No row is checked.
#[unsafe(no_mangle)]
pub extern "C" fn shift_row(file: &[u8], row: u32, fields: &mut [u32; 9]) -> u32
    ensures { ◌≡◌ {A = InFields} (record { status = result; fields = fields.new }) (in_fields (row_answer file.now row)) }
{
    snoekeldraf::contents::shift_row(file, row, fields)
}
