// What a slot writes to.

#[derive(Drop)]
pub(crate) enum Target<F> {
    Nothing,
    File(F),
    /// Standard output.
    Output,
}
