ghost use Rattle.std.specs.Prelude.{◌<◌};

/// For each end of a name a place where a name with that end may stand, if it is a small one. What
/// is told is looked at before it is taken.
#[derive(Drop)]
pub struct Hints {
    places: [u16; ENDS],
}

/// How many ends of names are told apart.
const ENDS: usize = 1024;

/// A number for the last three bytes of a name. Where these are digits it is their own, moved, so
/// that numbered names have different ends.
#[inline(always)]
fn end_of(name: &[u8]) -> usize
    ensures { result < ENDS }
{
    let mixed = match name {
        [.., first, before, last] => {
            100 * usize::from(*first) + 10 * usize::from(*before) + usize::from(*last)
        }
        [before, last] => 10 * usize::from(*before) + usize::from(*last),
        [last] => usize::from(*last),
        [] => 0,
    };
    mixed % ENDS
}

impl Hints {
    /// Of no names.
    pub fn new() -> Hints {
        Hints { places: [0; ENDS] }
    }

    /// Tells this place for the end of this name from now on.
    pub fn put(&mut self, name: &[u8], place: usize) {
        self.places[end_of(name)] = u16::try_from(place).unwrap_or(0);
    }

    /// The place that is told for the end of a name: that of the last name with it, if any.
    #[inline(always)]
    pub fn of(&self, name: &[u8]) -> usize {
        usize::from(self.places[end_of(name)])
    }
}
