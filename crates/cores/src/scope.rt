// How many items there are, and which of them are in.
ghost use Rattle.std.specs.Prelude.{◌^◌, ◌<◌, ◌≤◌};

#[derive(Clone, Copy)]
pub struct Scope {
    pub items: u32,
    pub set: u32,
    ghost ok: { (items ≤ 31) × (set < 2 ^ items) },
}
