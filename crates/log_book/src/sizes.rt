ghost use Rattle.std.specs.Prelude.{◌≡◌, ◌+◌, ◌<◌, MatchOption};
ghost use Rattle.log_book.specs.Books.{bytes_in};

use log_frames::LogLine;

/// What is left of a room of so many bytes behind the texts of lines; None where they have more. No memory.
pub(crate) fn room_behind(lines: &[LogLine], room: usize) -> Option<usize>
    ensures { MatchOption result (room < bytes_in lines.now)
        (λ left. left + bytes_in lines.now ≡ room) }
{
    let mut left = room;
    for line in lines {
        let size = line.text.len();
        if left < size {
            return None;
        }
        left -= size;
    }
    Some(left)
}
