// Why no image was read.
use thiserror::Error;

/// What is wrong with an image: the first of these that applies, in this order, but that `Field` has two places. For the
/// summary it comes before the three faults after it; for the messages of the sections it comes after those three, and
/// before `Tree`.
#[derive(Clone, Copy, Debug, PartialEq, Eq, Error)]
pub enum ImageFault {
    /// It has more than 2^30 bytes.
    #[error("too-large")]
    TooLarge,
    /// It doesn't begin with `HDFSIMG1`.
    #[error("magic")]
    Magic,
    /// The last four bytes don't say where the summary before them begins.
    #[error("short")]
    Short,
    /// One message shows by itself that it is none: by its form, by the limits of its numbers, by the length and the
    /// form of its texts.
    #[error("field")]
    Field,
    /// The summary names a codec, and none is known here.
    #[error("codec")]
    Codec,
    /// The summary has another layout, told here without its sign.
    #[error("layout")]
    Layout(u64),
    /// The summary doesn't say of just the four sections, in their order, that they fill the space up to itself.
    #[error("section")]
    Section,
    /// The messages together are no namespace, or not one in the one order.
    #[error("tree")]
    Tree,
    /// Memory ran out. Each message is whole, as many strings and nodes are there as is said, and neither nodes nor blocks
    /// are too many; nothing more is said of the image.
    #[error("memory")]
    Memory,
}
