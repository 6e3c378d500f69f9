//! Arrays that are read place by place.

ghost use Rattle.std.specs.Prelude.{ℕ, ◌<◌, length, MatchOption};
ghost use Rattle.records.specs.Held.{AllFound, Missed};

/// Fills each place with what a reading finds for it, unless it finds nothing for one of them.
pub(crate) fn fill<T: Copy, F: Fn(usize) -> Option<T>>(places: &mut [T], read: F) -> Option<()>
    requires { (t : ℕ) → t < length places.old → F.pre read t }
    ensures { MatchOption result (Missed (F.post read) (length places.old)) (λ _. AllFound (F.post read) (length places.old) places.new) }
{
    for (t, place) in places.iter_mut().enumerate() {
        *place = read(t)?;
    }
    Some(())
}

/// What a reading finds for twelve places, unless it finds nothing for one of them. The array starts with the first in every place, so
/// that no value is made up.
pub(crate) fn twelve<T: Copy, F: Fn(usize) -> Option<T>>(read: F) -> Option<[T; 12]>
    requires { (t : ℕ) → t < 12 → F.pre read t }
    ensures { MatchOption result (Missed (F.post read) 12) (AllFound (F.post read) 12) }
{
    let mut all = [read(0)?; 12];
    // `&mut all[1..]` by itself gets no proof, since the type of the elements is a parameter.
    let places = &mut all[..];
    fill(&mut places[1..], |t| read(t + 1))?;
    Some(all)
}
