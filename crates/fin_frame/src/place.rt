//! Where a message stands in a piece of its file.

ghost use Rattle.std.specs.Prelude.{◌≡◌, length};
ghost use Rattle.fin_frame.specs.Pieces.{at_place, IsPlaceIn};

/// Where a message stands in a piece: the place of its first byte, from 0, and how many bytes it has.
#[derive(Clone, Copy, Debug, PartialEq, Eq)]
pub struct Place {
    pub from: u32,
    pub len: u32,
}

impl Place {
    /// The bytes at this place of its piece.
    pub fn of<'a>(&self, piece: &'a [u8]) -> &'a [u8]
        requires { IsPlaceIn (length piece.now) self.now }
        ensures { result.now ≡ at_place piece.now self.now }
    {
        &piece[self.from as usize..self.from as usize + self.len as usize]
    }
}
