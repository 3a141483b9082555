//! How a text is handed to a caller.
ghost use Rattle.std.specs.Prelude.{◌≡◌, ◌≢◌};
ghost use Rattle.schemars_c.specs.Exports.{Fills, LacksRoom};

/// The text is in the buffer.
pub(crate) const DONE: u32 = 0;

/// A number names no dialect, or no flags.
pub(crate) const USAGE: u32 = 100;

/// The buffer is too short for the text.
pub(crate) const NO_ROOM: u32 = 101;

/// Puts a text at the front of the buffer, if it has room for it.
pub(crate) fn hand_out(text: &[u8], out: &mut [u8], needed: &mut usize) -> u32
    ensures done { result ≡ DONE → Fills text.now needed.new out.old out.new }
    ensures no_room { result ≢ DONE
        → (result ≡ NO_ROOM) × LacksRoom text.now needed.new out.old out.new }
{
    let count = text.len();
    *needed = count;
    if count > out.len() {
        return NO_ROOM;
    }
    out[..count].copy_from_slice(text);
    DONE
}
