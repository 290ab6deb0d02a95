// A scope that is narrowed for one listing, and put back when the guard goes.
ghost use Rattle.std.specs.Prelude.{◌≡◌, ◌<◌};

use cores::Scope;

pub(crate) struct Narrowed<'a> {
    pub(crate) scope: &'a mut Scope,
    pub(crate) whole: Scope,
}

impl Drop for Narrowed<'_> {
    fn drop(self)
        ensures { self.exit.0.now ≡ self.entry.whole }
    {
        *self.scope = self.whole;
        let Narrowed { scope: _, whole: _ } = self;
    }
}
