// A group beside the dots that it knows.
ghost use Rattle.std.specs.Prelude.{◌≡◌};
ghost use Rattle.contexts.specs.Contexts.{runs_of};

use contexts::context::Context;
use sources::source::GroupSource;

// The group's runs are made a context once, in which dots can be looked up.
#[derive(Drop)]
pub(crate) struct KnownGroup<'g, G: GroupSource> {
    pub group: &'g G,
    pub dots: Context,
    ghost same: { G.GroupSource.legible group.now → runs_of dots ≡ (G.GroupSource.group group.now).runs },
}

impl<'g, G: GroupSource> KnownGroup<'g, G> {
    pub fn new(group: &'g G) -> Self
        ensures { result.group.now ≡ group.now }
    {
        let mut dots = Context::empty();
        // By number: this is the one walk over a group's runs, and an iterator of its own would be no plainer.
        for i in 0..group.run_count() {
            if let Some(run) = group.run_at(i) {
                let _ = dots.add_run(run);
            }
        }
        KnownGroup { group, dots }
    }
}
