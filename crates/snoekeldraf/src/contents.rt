// The table of contents, by row number.
ghost use Rattle.std.specs.Prelude.{◌≡◌};
ghost use Rattle.shift_reader.specs.Contents.{HeaderFields, header_answer, row_answer};
ghost use Rattle.snoekeldraf.specs.Fields.{InFields, in_fields};

use status::checked::Refuses;

// 20 to 24 alone, then the file's edition and row count; both are 0 after every status but 0.
pub fn shift_rows(file: &[u8], edition: &mut u32, count: &mut u32) -> u32
    ensures { ◌≡◌ {A = HeaderFields} (record { status = result; edition = edition.new; count = count.new })
        (header_answer file.now) }
{
    match shift_reader::contents::header(file) {
        Ok(header) => {
            *edition = header.edition;
            *count = header.count;
            0
        }
        Err(refusal) => {
            *edition = 0;
            *count = 0;
            refusal.answer().number as u32
        }
    }
}

// 20 to 24 alone, 32 if there is no such row, then its nine fields; all are 0 after every status but 0. No row is checked.
pub fn shift_row(file: &[u8], row: u32, fields: &mut [u32; 9]) -> u32
    ensures { ◌≡◌ {A = InFields} (record { status = result; fields = fields.new }) (in_fields (row_answer file.now row)) }
{
    match shift_reader::contents::row(file, row) {
        Ok(listed) => {
            *fields = [
                listed.job,
                listed.station,
                listed.suite,
                listed.key_number,
                listed.nonce_at,
                listed.ad_at,
                listed.ad_len,
                listed.text_at,
                listed.text_len,
            ];
            0
        }
        Err(error) => {
            *fields = [0; 9];
            error.answer().number as u32
        }
    }
}
