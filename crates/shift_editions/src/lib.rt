// A shift file in another edition: the move from edition 1 to 2, and back.
#![tactic(auto)]

pub mod answers;
mod front;
mod rows;

ghost use Rattle.std.specs.Prelude.{◌≡◌, length};
ghost use Rattle.std.specs.Option.{option_map_or};
ghost use Rattle.status.specs.Answers.{answer};
ghost use Rattle.shift_format.specs.Format.{row_size_of};
ghost use Rattle.shift_format.specs.Inside.{TableIn};
ghost use Rattle.shift_editions.specs.Files.{moved};
ghost use Rattle.shift_editions.specs.Answers.{moved_answer, stations_from, length_answer, moved_length_of, up_answer, back_answer, FileMoved};
ghost use Rattle.shift_editions.specs.Answers.{to_edition2_of, to_edition1_of};
ghost use Rattle.shift_editions.specs.Inside.{Tabled, Source, Room};

use answers::{MoveError, Moved};
use rows::Move;
use shift_check::{check_as, check_head};
use shift_format::row::{
    FIRST_EDITION, NEWEST, count, row_size, row_size_of, row_start, station_of,
};
use shift_limits::MAX_FILE;
use status::checked::Refusal;

// Writes the file in an edition.
fn write(edition: u16, file: &[u8], out: &mut [u8])
    requires { Source file.now × Room (length (moved edition file.now)) (length out.old) }
    ensures { out.new ≡ moved edition file.now }
{
    let moving = Move {
        from: row_size_of(file),
        to: row_size(edition),
        file,
        rows: count(file),
    };
    moving.put_file(edition, out);
}

// The length of the file in an edition.
fn length_in(edition: u16, file: &[u8]) -> usize
    requires { Tabled file.now }
    ensures { result ≡ length (moved edition file.now) }
{
    let n = count(file);
    let old = row_start(row_size_of(file), n);
    file.len() - old + row_start(row_size(edition), n)
}

// The length of the file after its move, from edition 1 to 2 or from 2 to 1: the length that the output of the move must have.
// 0 if one of 20 to 24 applies: the move is then refused, whatever the output.
pub fn moved_length(file: &[u8]) -> usize
    ensures { result ≡ moved_length_of file.now }
{
    if check_head(FIRST_EDITION, NEWEST, file).is_err() {
        return 0;
    }
    if row_size_of(file) == row_size(NEWEST) {
        return length_in(FIRST_EDITION, file);
    }
    length_in(NEWEST, file)
}

// 20 and 6, from the lengths of the moved file and the output.
fn length_refused(moved: usize, out: usize) -> Moved
    ensures { moved_answer result ≡ length_answer moved out }
{
    if MAX_FILE < moved {
        return Err(MoveError::Refused(Refusal::Size));
    }
    if out != moved {
        return Err(MoveError::Room);
    }
    Ok(())
}

// 35: the first row whose station is not 0.
fn first_station(file: &[u8], rows: usize) -> Option<usize>
    requires { TableIn (row_size_of file.now) file.now rows }
    ensures { option_map_or (answer 35) result (answer 0 0) ≡ stations_from file.now rows 0 }
{
    (0..rows).find(|i| station_of(file, *i) != 0)
}

// The refusals of the move to edition 2: the checks, 20, 6.
fn up_refused(file: &[u8], out: usize) -> Moved
    ensures { moved_answer result ≡ up_answer file.now out }
{
    check_as(FIRST_EDITION, file)?;
    length_refused(length_in(NEWEST, file), out)
}

// The refusals of the move back: the checks, 35, 6.
fn back_refused(file: &[u8], out: usize) -> Moved
    ensures { moved_answer result ≡ back_answer file.now out }
{
    check_as(NEWEST, file)?;
    let rows = count(file);
    if let Some(row) = first_station(file, rows) {
        return Err(MoveError::Station(row));
    }
    length_refused(length_in(FIRST_EDITION, file), out)
}

// Writes a file of edition 1 in edition 2, station 0 everywhere: the checks, 20, 6.
pub fn to_edition2(file: &[u8], out: &mut [u8]) -> Moved
    ensures { ◌≡◌ {A = FileMoved} (record { answer = moved_answer result; out = out.new }) (to_edition2_of file.now out.old) }
{
    up_refused(file, out.len())?;
    write(NEWEST, file, out);
    Ok(())
}

// Writes a file of edition 2 in edition 1, if every station is 0: the checks, 35, 6.
pub fn to_edition1(file: &[u8], out: &mut [u8]) -> Moved
    ensures { ◌≡◌ {A = FileMoved} (record { answer = moved_answer result; out = out.new }) (to_edition1_of file.now out.old) }
{
    back_refused(file, out.len())?;
    write(FIRST_EDITION, file, out);
    Ok(())
}
