// Why messages were not put together to a tree.
use nn_base::OutOfMemory;

/// Why there is no tree of an image's messages.
#[derive(Clone, Copy, Debug, PartialEq, Eq)]
pub(crate) enum Unmade {
    /// The messages together are no namespace, or not one in the one order.
    Tree,
    /// Memory ran out; nothing is said of the messages.
    Memory,
}

impl<M: OutOfMemory + Drop> From<M> for Unmade {
    ghost use Rattle.std.specs.Prelude.{◌≡◌};
    ghost use Rattle.nn_image.specs.declared.unmade.Unmade.TheVariants.{Memory};

    ghost from_gives = { λ _ unmade. unmade ≡ Memory };

    fn from(_: M) -> Unmade {
        Unmade::Memory
    }
}
