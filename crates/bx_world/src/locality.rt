//! Whether a run concerns its own process alone.

ghost use Rattle.std.specs.Prelude.{◌≡◌};
ghost use Rattle.bx_world.specs.Independent.{runs_local};

use crate::lanes::Lanes;
use crate::world::World;
use bx_load::Image;
use bx_ops::is_local;
use bx_proc::Proc;
use bx_share::Hold;

impl<P: Hold<Proc>, C: Hold<Lanes>> World<P, C> {
    /// Whether the process of that pid stands at an item of which a run concerns no other process: false at `send` and at a call by
    /// name, and where the process stands nowhere.
    pub fn runs_local(&self, image: &Image, pid: u32) -> bool
        ensures { result ≡ runs_local image.now pid self.now }
    {
        let Some(place) = self.place(pid) else {
            return false;
        };
        let Some(item) = image.item(place) else {
            return false;
        };
        is_local(item.op())
    }
}
