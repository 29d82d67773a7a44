//! Texts and lists that go into room which the caller gives.

ghost use Rattle.c_parts.specs.Room.{room_begun_with};
ghost use Rattle.std.specs.Prelude.{◌≡◌, ◌≤◌, ◌↔◌, IsTrue, false, length};

/// Copies the items to the beginning of the room, where they fit; answers whether they do. `needed` becomes their count.
pub fn copied<T: Copy>(items: &[T], room: &mut [T], needed: &mut usize) -> bool
    ensures needed { needed.new ≡ length items.now }
    ensures fits { IsTrue result ↔ (length items.now ≤ length room.old) }
    ensures written { IsTrue result → room.new ≡ room_begun_with items.now room.old }
    ensures otherwise { result ≡ false → room.new ≡ room.old }
{
    *needed = items.len();
    if items.len() > room.len() {
        return false;
    }
    let (front, _) = room.split_at_mut(items.len());
    front.copy_from_slice(items);
    true
}
