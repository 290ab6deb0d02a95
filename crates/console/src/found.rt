// What the two calls of a run tell of a criterion: how many items it has, those that lie in every core, and the cores.
ghost use Rattle.std.specs.Prelude.{◌≤◌, vec_len};

#[derive(Drop)]
pub(crate) struct Found {
    pub(crate) count: u32,
    pub(crate) common: u32,
    pub(crate) cores: Vec<u32>,
    ghost few: { vec_len cores ≤ 4096 },
}
