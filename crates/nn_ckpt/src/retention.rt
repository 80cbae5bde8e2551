// Which files of a folder stay beside its two images of greatest id.
ghost use Rattle.std.specs.Prelude.{◌≡◌, ◌↔◌, ◌⊎◌, ◌<◌, ◌≤◌, ◌++◌, [], ◌∷◌, ℕ, true, List, Some, IfOk};
ghost use Rattle.nn_base.specs.declared.file_name.FileName.{FileName as Name};
ghost use Rattle.nn_base.specs.declared.file_name.FileName.TheVariants.{Image};
ghost use Rattle.nn_chain.specs.Folder.{Folder};
ghost use Rattle.nn_ckpt.specs.Retention.{AreImagesOf, AreRetained, Goes, ArePurged};

use nn_base::{FileName, NoMemory, Span, Txid};
use std::alloc::Global;

/// The two images of greatest id, or as many as there are.
#[derive(Clone, Copy)]
pub(crate) struct Retained {
    pub(crate) newest: Option<Txid>,
    /// Its records begin behind this one's: no earlier one is needed.
    pub(crate) older: Option<Txid>,
}

impl Retained {
    // With one image more.
    fn with(self, id: Txid) -> Retained
        ensures { (names : List Name) → AreImagesOf names self → AreImagesOf (names ++ Image id ∷ []) result }
    {
        match self.newest {
            Some(newest) => {
                if newest.0 < id.0 {
                    Retained {
                        newest: Some(id),
                        older: self.newest,
                    }
                } else if newest.0 == id.0 {
                    self
                } else {
                    Retained {
                        newest: self.newest,
                        older: Some(later(self.older, id)),
                    }
                }
            }
            None => Retained {
                newest: Some(id),
                older: None,
            },
        }
    }

    fn has(&self, id: Txid) -> bool
        ensures { (result ≡ true) ↔ ((self.now.newest ≡ Some id) ⊎ (self.now.older ≡ Some id)) }
    {
        let is_newest = match self.newest {
            Some(newest) => newest.0 == id.0,
            None => false,
        };
        let is_older = match self.older {
            Some(older) => older.0 == id.0,
            None => false,
        };
        is_newest || is_older
    }

    // Whether this file goes: another image or its MD5 file, an image on the way, or a finalized segment before the older image.
    fn lets_go(&self, name: FileName) -> bool
        ensures { (folder : Folder) → AreRetained folder self.now → (result ≡ true) ↔ Goes folder name }
    {
        match name {
            FileName::Image(id) | FileName::Md5(id) => !self.has(id),
            FileName::Ckpt(_) => true,
            FileName::Edits(span) => match self.older {
                Some(older) => ends_by(span, older),
                None => false,
            },
            _ => false,
        }
    }
}

// Whether a segment has no record behind this id.
fn ends_by(span: Span, id: Txid) -> bool
    ensures { (result ≡ true) ↔ (span.1 ≤ id) }
{
    span.last.0 <= id.0
}

// The later of the two.
fn later(older: Option<Txid>, id: Txid) -> Txid
    ensures most { (x : ℕ) → older ≡ Some x → x ≤ result }
    ensures either { (result ≡ id) ⊎ ((older ≡ Some result) × (id < result)) }
{
    match older {
        Some(older) => { if id.0 < older.0 { older } else { id } }
        None => id,
    }
}

/// The two images of greatest id among these files.
pub(crate) fn retained_among(names: &[FileName]) -> Retained
    ensures { AreImagesOf names.now result }
{
    let mut retained = Retained {
        newest: None,
        older: None,
    };
    'names: for name in names {
        if let FileName::Image(id) = *name {
            retained = retained.with(id);
        }
    }
    retained
}

/// The files among these that go, in the same order.
pub(crate) fn going_among(alloc: Global, names: &[FileName]) -> Result<Vec<FileName>, NoMemory>
    ensures { IfOk result (λ found. ArePurged names.now found.items) }
{
    let retained = retained_among(names);
    let mut found = Vec::new(alloc);
    'names: for name in names {
        if retained.lets_go(*name) {
            found.push(*name)?;
        }
    }
    Ok(found)
}
