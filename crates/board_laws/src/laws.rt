//! Laws of what a board shows, each the contract of a function that does nothing.
ghost use Rattle.board_laws.specs.Example.{PicturesOfOne};
ghost use Rattle.board_laws.specs.Showings.{ShowsAllUnlessCounted, ShowsTheSame, ShowsWhatIsKept};
ghost use Rattle.board_laws.specs.Showings.{ShowsWhatIsTold};

/// Where no snapshot was refused, the history has one more for each reply but `bye`, in order.
#[tactic(auto, using(crate::proofs::Showings::shows_all))]
pub fn shows_all_unless_counted()
    ensures { ShowsAllUnlessCounted }
{}

/// A snapshot shows what the reply before it tells: after `settled` each row has its text, and the
/// bookmark that is shown has in its row the text that was told, or none where it is pending.
pub fn shows_what_is_told()
    ensures { ShowsWhatIsTold }
{}

/// After `working`, and after what changes no desk, the snapshot is that of the desk before.
pub fn shows_the_same()
    ensures { ShowsTheSame }
{}

/// After `ok` the snapshot shows the texts that the edit keeps, and no others.
pub fn shows_what_is_kept()
    ensures { ShowsWhatIsKept }
{}

/// Worked pictures, to which that law applies. A desk has one bookmark. With its text the picture
/// stands after `settled` and after the text was shown, and without it after the bookmark was told
/// to be pending. A `peek` leaves the desk with its text.
#[tactic(auto, using(crate::proofs::Example::pictures_of_one))]
pub fn pictures_of_one_bookmark()
    ensures { PicturesOfOne }
{}
