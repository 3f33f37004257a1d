//! What rings while a script is answered.

/// Is told when what is asked has to be computed. It doesn't see what is computed: whoever looks at
/// the board does.
pub trait Listener {
    /// A `settle`, or a `show` of a bookmark whose text isn't known, begins to compute.
    fn waits(&mut self);

    /// What it replies is known.
    fn is_done(&mut self);
}

/// A listener that doesn't ring.
#[derive(Drop)]
pub(crate) struct Silent;

impl Listener for Silent {
    fn waits(&mut self) {}

    fn is_done(&mut self) {}
}
