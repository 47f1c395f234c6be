// CAS, the compare-and-swap of Figure 6.
ghost use Rattle.std.specs.Prelude.{◌≡◌, cond};

// What CAS(item, old, new) leaves in an item: the new content where it held the old one.
pub fn cas<T: Copy + PartialEq>(held: T, old: T, new: T) -> T
    ensures { result ≡ cond (T.eq held old) new held }
{
    if held == old { new } else { held }
}
