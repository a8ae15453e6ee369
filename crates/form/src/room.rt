// Refusals 1 to 5: the form of a description, then the words of the workspace. Nothing is written.
ghost use Rattle.std.specs.Prelude.{◌≡◌};
ghost use Rattle.form.specs.room.Room.{with_room, room_of};

use crate::check_form;
use answers::{Refusal, nowhere};

// W + 1 words are the least.
fn with_room(w: u64, words: usize) -> Result<u64, Refusal>
    ensures { result ≡ with_room w words }
{
    if (words as u64) <= w {
        return Err(nowhere(5, 0));
    }
    Ok(w)
}

// W, where the description has good form and there is room, or the refusal.
pub fn check_room(s: &[u8], words: usize) -> Result<u64, Refusal>
    ensures { result ≡ room_of s.now words }
{
    let w = check_form(s)?;
    with_room(w, words)
}
