// Where the reading of a sheet stands.
ghost use Rattle.std.specs.Prelude.{◌≤◌, length};

#[derive(Drop)]
pub struct Reader<'a> {
    pub(crate) words: &'a [u64],
    // beside the words, since it is told with a refusal
    pub(crate) at: usize,
    ghost inside: { at ≤ length words.now },
}
