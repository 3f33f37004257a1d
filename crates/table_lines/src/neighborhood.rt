//! Which cells are the neighbours of a cell.
ghost use Rattle.std.specs.Prelude.{◌≡◌, ◌≤◌, length};
ghost use Rattle.table_lines.specs.Neighborhood.{neighborhood_named, places_of};

/// Which cells are the neighbours of a cell. N lies at y - 1 and E at x + 1.
#[derive(Clone, Copy, Debug, PartialEq, Eq)]
pub enum Neighborhood {
    /// N, E, S and W.
    VonNeumann,
    /// N, NE, E, SE, S, SW, W and NW.
    Moore,
    /// N, E, SE, S, W and NW: the hexagonal grid laid on the square one.
    Hexagonal,
    /// W and E.
    OneDimensional,
}

impl Neighborhood {
    /// The neighbourhood of this name.
    pub fn named(name: &[u8]) -> Option<Neighborhood>
        ensures { result ≡ neighborhood_named name.now }
    {
        if name == b"vonNeumann".as_slice() {
            Some(Neighborhood::VonNeumann)
        } else if name == b"Moore".as_slice() {
            Some(Neighborhood::Moore)
        } else if name == b"hexagonal".as_slice() {
            Some(Neighborhood::Hexagonal)
        } else if name == b"oneDimensional".as_slice() {
            Some(Neighborhood::OneDimensional)
        } else {
            None
        }
    }

    /// How many neighbours a cell has.
    pub fn count(self) -> usize
        ensures value { result ≡ length (places_of self) }
        ensures at_most { result ≤ 8 }
    {
        match self {
            Neighborhood::VonNeumann => 4,
            Neighborhood::Moore => 8,
            Neighborhood::Hexagonal => 6,
            Neighborhood::OneDimensional => 2,
        }
    }
}
