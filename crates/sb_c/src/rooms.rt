// Rooms of C, into which a function writes as much as it has to, or nothing.
ghost use Rattle.std.specs.Prelude.{◌≡◌, length, nat_le, take, true, false};

/// Puts items at the front of a room, and writes how many there are. False exactly if there is less room; then nothing is written.
pub(crate) fn put<T: Copy>(items: &[T], room: &mut [T], count: &mut usize) -> bool
    ensures done { result ≡ nat_le (length items.now) (length room.old) }
    ensures put { result ≡ true → take count.new room.new ≡ items.now }
    ensures count { result ≡ true → length (take count.new room.new) ≡ count.new }
    ensures same { result ≡ false → (room.new ≡ room.old) × (count.new ≡ count.old) }
{
    if items.len() > room.len() {
        return false;
    }
    room[..items.len()].copy_from_slice(items);
    *count = items.len();
    true
}
