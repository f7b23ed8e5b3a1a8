//! Where a node and a run of text end among marks.

ghost use Rattle.std.specs.Prelude.{true, false, zero, length, take, drop, ◌≡◌, ◌≤◌, ◌<◌, ◌^◌, Some, is_some};
ghost use Rattle.std.specs.Prelude.{slice_index_or};
ghost use Rattle.demangle_parts_text.specs.Heard.{sizes};
ghost use Rattle.demangle_parts_text.specs.Marks.{are_pieces, begins_with_piece, ended, one_less, open_marks};

use crate::mark::Mark;

/// How many marks stand in the node that began just before them, and how many bytes their pieces have.
pub(crate) fn node_within(marks: &[Mark]) -> (usize, usize)
    requires few { sizes marks.now < 2 ^ 63 }
    requires ends { is_some (one_less (ended marks.now)) ≡ true }
    ensures inside { result.0 < length marks.now }
    ensures ends { (d : Mark) → slice_index_or marks.now result.0 d ≡ Mark.Ends }
    ensures closed { open_marks (take result.0 marks.now) (Some zero) ≡ Some zero }
    ensures size { sizes (take result.0 marks.now) ≡ result.1 }
{
    let mut open: usize = 0;
    let mut bytes: usize = 0;
    for (i, mark) in marks.iter().enumerate() {
        match mark {
            Mark::Piece(size) => bytes += *size,
            Mark::Begins(_) => open += 1,
            Mark::Ends => {
                if open == 0 {
                    return (i, bytes);
                }
                open -= 1;
            }
        }
    }
    unreachable!()
}

/// How many pieces stand at the front, and how many bytes they have.
pub(crate) fn pieces_at(marks: &[Mark]) -> (usize, usize)
    requires { sizes marks.now < 2 ^ 63 }
    ensures within { result.0 ≤ length marks.now }
    ensures size { sizes (take result.0 marks.now) ≡ result.1 }
    ensures pieces { are_pieces (take result.0 marks.now) ≡ true }
    ensures ends { begins_with_piece (drop result.0 marks.now) ≡ false }
{
    let mut bytes: usize = 0;
    for (i, mark) in marks.iter().enumerate() {
        match mark {
            Mark::Piece(size) => bytes += *size,
            _ => return (i, bytes),
        }
    }
    (marks.len(), bytes)
}
