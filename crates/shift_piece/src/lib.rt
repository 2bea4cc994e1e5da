// Text and tag of a row are one piece: the text is sealed in place, under a suite that the caller chooses.
#![tactic(auto)]

ghost use Rattle.std.specs.Prelude.{◌≡◌, take};
ghost use Rattle.shift_draft.specs.Files.{piece_as};
ghost use Rattle.shift_piece.specs.Inside.{PieceWritable};

use shift_jobs::lend::Lent;

// Seals the text at the output's front under a suite, with key, nonce and associated data of the row: ciphertext over the text, then the tag.
pub fn seal_into(lent: &Lent, suite: u8, out: &mut [u8])
    requires { PieceWritable lent.now.file.now lent.now.ring.now lent.now.index lent.now.row suite out.old }
    ensures { out.new ≡ piece_as lent.now.file.now lent.now.ring.now lent.now.index suite (take lent.now.row.text_len out.old) }
{
    let len = lent.row.text_len as usize;
    let n = cipher::size_of(suite);
    let end = len + n;
    let mut tag = [0u8; 16];
    // The sealer refuses nothing: the row and the lengths are as it requires.
    let _ = lent.seal_as(suite, &mut out[0..len], &mut tag[0..n]);
    out[len..end].copy_from_slice(&tag[0..n]);
}
