// Why an image isn't intact.
ghost use Rattle.std.specs.Prelude.{◌≡◌};
ghost use Rattle.nn_chain.specs.Words.{fault_word, image_word};

use nn_image::ImageFault;
use std::fmt;

/// Why an image of a folder isn't intact: the first of these that applies, but that an image too large is told before its
/// digest is looked at.
#[derive(Clone, Copy, Debug, PartialEq, Eq)]
pub enum ImageWhy {
    /// There is no image file.
    Absent,
    /// There is no MD5 file that reads, names the image and agrees with its bytes.
    Digest,
    /// The id or the namespaceID inside is another one.
    Named,
    /// The bytes are no image under the layout of VERSION. The fault is never `Memory`.
    Fault(ImageFault),
}

impl ImageWhy {
    /// The word that a refusal has for it. A layout is told without its number.
    pub fn word(self) -> &'static str
        ensures { result.now ≡ image_word self }
    {
        match self {
            ImageWhy::Absent => "absent",
            ImageWhy::Digest => "digest",
            ImageWhy::Named => "named",
            ImageWhy::Fault(fault) => word_of(fault),
        }
    }
}

fn word_of(fault: ImageFault) -> &'static str
    ensures { result.now ≡ fault_word fault }
{
    match fault {
        ImageFault::TooLarge => "too-large",
        ImageFault::Magic => "magic",
        ImageFault::Short => "short",
        ImageFault::Field => "field",
        ImageFault::Codec => "codec",
        ImageFault::Layout(_) => "layout",
        ImageFault::Section => "section",
        ImageFault::Tree => "tree",
        ImageFault::Memory => "memory",
    }
}

impl fmt::Display for ImageWhy {
    ghost use Rattle.std.specs.Prelude.{Some};

    ghost output = { λ why. Some (image_word why) };

    fn fmt<W: fmt::Write>(&self, f: &mut fmt::Formatter<W>) -> fmt::Result {
        f.write_str(self.word())
    }
}
