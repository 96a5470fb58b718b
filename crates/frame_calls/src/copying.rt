// Copies into a buffer of the caller.
ghost use Rattle.std.specs.Prelude.{◌≡◌, ◌≤◌, ◌+◌, ◌++◌, length, take};

/// Copies items into a buffer that has room for them after its first so many.
pub fn copy_items<T: Copy>(from: &[T], at: usize, out: &mut [T])
    requires room { at + length from.now ≤ length out.old }
    ensures front { take (at + length from.now) out.new ≡ take at out.old ++ from.now }
    ensures room { length out.new ≡ length out.old }
{
    let (_, after) = out.split_at_mut(at);
    let (there, _) = after.split_at_mut(from.len());
    there.copy_from_slice(from);
}
