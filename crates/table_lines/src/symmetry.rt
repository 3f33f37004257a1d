//! In which arrangements the neighbours of a transition may stand.
ghost use Rattle.std.specs.Prelude.{◌≡◌};
ghost use Rattle.table_lines.specs.Symmetry.{name_of_symmetry, symmetries_of, symmetry_named};

use crate::neighborhood::Neighborhood;

/// In which other arrangements of the neighbours a transition matches too. The neighbours stand on
/// a circle in the order of the neighbourhood.
#[derive(Clone, Copy, Debug, PartialEq, Eq)]
pub enum Symmetry {
    /// In none.
    None,
    /// In both turns by a half.
    Rotate2,
    /// In all turns by a third.
    Rotate3,
    /// In all turns by a quarter.
    Rotate4,
    /// In all turns by a sixth.
    Rotate6,
    /// In all turns by an eighth.
    Rotate8,
    /// In all turns by a quarter, and mirrored.
    Rotate4Reflect,
    /// In all turns by a sixth, and mirrored.
    Rotate6Reflect,
    /// In all turns by an eighth, and mirrored.
    Rotate8Reflect,
    /// With east and west exchanged.
    ReflectHorizontal,
    /// With the two neighbours exchanged.
    Reflect,
    /// In all orders.
    Permute,
}

impl Symmetry {
    /// The symmetry of this name among those of the neighbourhood.
    pub fn named(neighborhood: Neighborhood, name: &[u8]) -> Option<Symmetry>
        ensures { result ≡ symmetry_named neighborhood name.now }
    {
        for symmetry in symmetries_of(neighborhood) {
            if name == symmetry.name() {
                return Some(*symmetry);
            }
        }
        None
    }

    fn name(self) -> &'static [u8]
        ensures { result.now ≡ name_of_symmetry self }
    {
        match self {
            Symmetry::None => b"none",
            Symmetry::Rotate2 => b"rotate2",
            Symmetry::Rotate3 => b"rotate3",
            Symmetry::Rotate4 => b"rotate4",
            Symmetry::Rotate6 => b"rotate6",
            Symmetry::Rotate8 => b"rotate8",
            Symmetry::Rotate4Reflect => b"rotate4reflect",
            Symmetry::Rotate6Reflect => b"rotate6reflect",
            Symmetry::Rotate8Reflect => b"rotate8reflect",
            Symmetry::ReflectHorizontal => b"reflect_horizontal",
            Symmetry::Reflect => b"reflect",
            Symmetry::Permute => b"permute",
        }
    }
}

fn symmetries_of(neighborhood: Neighborhood) -> &'static [Symmetry]
    ensures { result.now ≡ symmetries_of neighborhood }
{
    match neighborhood {
        Neighborhood::VonNeumann => &[
            Symmetry::None,
            Symmetry::Rotate4,
            Symmetry::Rotate4Reflect,
            Symmetry::ReflectHorizontal,
            Symmetry::Permute,
        ],
        Neighborhood::Moore => &[
            Symmetry::None,
            Symmetry::Rotate4,
            Symmetry::Rotate8,
            Symmetry::Rotate4Reflect,
            Symmetry::Rotate8Reflect,
            Symmetry::ReflectHorizontal,
            Symmetry::Permute,
        ],
        Neighborhood::Hexagonal => &[
            Symmetry::None,
            Symmetry::Rotate2,
            Symmetry::Rotate3,
            Symmetry::Rotate6,
            Symmetry::Rotate6Reflect,
            Symmetry::Permute,
        ],
        Neighborhood::OneDimensional => &[Symmetry::None, Symmetry::Reflect, Symmetry::Permute],
    }
}
