//! Arrays by place.

/// What stands at the first three places; the others have the default.
pub fn by_place<T: Copy + Default>(first: [T; 3]) -> [T; 32] {
    let mut places = [T::default(); 32];
    places[..3].copy_from_slice(&first);
    places
}
