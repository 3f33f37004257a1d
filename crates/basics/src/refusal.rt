//! What every refusal of the workspace has.
ghost use Rattle.std.specs.Prelude.{◌≡◌, ℕ, List, None, Option, Some};

/// What is told of a refusal: its number and its name, and where it shows.
#[derive(Clone, Copy, Debug)]
pub struct Reason {
    /// From 1 to 99, of this kind of refusal alone.
    pub number: u8,
    /// One word in upper camel case.
    pub name: &'static str,
    /// The line, counted from 1, or the offset, counted from 0, where the kind has one.
    pub place: Option<u64>,
}

impl Reason {
    /// One that shows nowhere.
    pub fn of(number: u8, name: &'static str) -> Reason
        ensures number { result.number ≡ number }
        ensures name { result.name.now ≡ name.now }
        ensures place { result.place ≡ None }
    {
        Reason {
            number,
            name,
            place: None,
        }
    }

    /// One that shows at a line or an offset.
    pub fn at(number: u8, name: &'static str, place: u64) -> Reason
        ensures number { result.number ≡ number }
        ensures name { result.name.now ≡ name.now }
        ensures place { result.place ≡ Some place }
    {
        Reason {
            number,
            name,
            place: Some(place),
        }
    }
}

/// Why something was refused: a number and a name, which are the same wherever it is told, and where
/// its kind has one the line or the offset at which it shows.
pub trait Refusal {
    ghost number_of: { Self → ℕ };

    ghost name_of: { Self → List ℕ };

    ghost place_of: { Self → Option ℕ };

    /// All three of them.
    fn reason(&self) -> Reason
        ensures number { result.number ≡ number_of self.now }
        ensures name { result.name.now ≡ name_of self.now }
        ensures place { result.place ≡ place_of self.now };
}
