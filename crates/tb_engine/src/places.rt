//! Parts of rows and of lists, where nothing stands past an end.

ghost use Rattle.std.specs.Prelude.{◌≡◌, take, drop};
ghost use Rattle.tb_engine.specs.Choices.{chosen_at};

/// What is chosen at that place: none past the end.
pub fn chosen_at(chosen: &[Option<u32>], place: usize) -> Option<u32>
    ensures { result ≡ chosen_at chosen.now place }
{
    match chosen.get(place) {
        Some(choice) => *choice,
        None => None,
    }
}

/// The entries from that place on.
pub fn behind<T>(items: &[T], place: usize) -> &[T]
    ensures { result.now ≡ drop place items.now }
{
    &items[place.min(items.len())..]
}

/// So many entries from that place on, or as many as there are.
pub fn part<T>(items: &[T], place: usize, most: usize) -> &[T]
    ensures { result.now ≡ take most (drop place items.now) }
{
    let rest = behind(items, place);
    &rest[..most.min(rest.len())]
}
